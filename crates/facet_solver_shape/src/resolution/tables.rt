//! The tables of a resolution, each seen as a finite map or set.
pub(crate) mod catch_alls;
pub(crate) mod field_map;
pub(crate) mod key_path_set;
pub(crate) mod name_set;

pub(crate) use catch_alls::CatchAlls;
pub(crate) use field_map::FieldMap;
pub(crate) use key_path_set::KeyPathSet;
pub(crate) use name_set::NameSet;
