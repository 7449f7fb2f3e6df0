//! Maps of the world: collections of features, as in GeoJSON.

use crate::fault::Fault;
use crate::json_text::JsonText;
use crate::random::Random;
use crate::reads::Readable;
use crate::types::{Tagging, Types};
use facet_solver::{ShapeId, ShapeKind};
use std::alloc::Global;

const BY_TYPE: Tagging = Tagging::Internal("type");

/// The type of a collection.
pub fn features(alloc: Global) -> Result<Readable, Fault> {
    let mut types = Types::new(alloc);
    let geometry = geometry(alloc, &mut types)?;
    let geometry = types.option(geometry)?;
    let name = types.text()?;
    let any = types.kind("Value", ShapeKind::DynamicValue)?;
    let properties = types.map(name, any)?;
    let properties = types.option(properties)?;
    let fields = types.fields(&[("geometry", geometry), ("properties", properties)])?;
    let feature = types.variant("Feature", fields)?;
    let feature = types.enumeration("Feature", vec![in alloc; feature]?, BY_TYPE)?;
    let features = types.list(feature)?;
    let fields = types.fields(&[("features", features)])?;
    let collection = types.variant("FeatureCollection", fields)?;
    let root = types.enumeration("Collection", vec![in alloc; collection]?, BY_TYPE)?;
    let shapes = types.catalogue()?;
    Ok(Readable { shapes, root })
}

/// The seven kinds of geometries.
fn geometry(alloc: Global, types: &mut Types) -> Result<ShapeId, Fault> {
    let number = types.decimal()?;
    let position = types.list(number)?;
    let line = types.list(position)?;
    let lines = types.list(line)?;
    let polygons = types.list(lines)?;
    let geometries = types.ahead(1);
    let geometries = types.list(geometries)?;
    let mut variants = Vec::new(alloc);
    for (kind, name, shape) in [
        ("Point", "coordinates", position),
        ("MultiPoint", "coordinates", line),
        ("LineString", "coordinates", line),
        ("MultiLineString", "coordinates", lines),
        ("Polygon", "coordinates", lines),
        ("MultiPolygon", "coordinates", polygons),
        ("GeometryCollection", "geometries", geometries),
    ] {
        let fields = types.fields(&[(name, shape)])?;
        variants.push(types.variant(kind, fields)?)?;
    }
    types.enumeration("Geometry", variants, BY_TYPE)
}

/// Writes a collection of so many features.
pub fn write_features(text: &mut JsonText, random: &mut Random, count: u64) -> Result<(), Fault> {
    text.open("{")?;
    text.string_member("type", "FeatureCollection")?;
    text.name("features")?;
    text.open("[")?;
    for _ in 0..count {
        write_feature(text, random)?;
    }
    text.close("]")?;
    Ok(text.close("}")?)
}

fn write_feature(text: &mut JsonText, random: &mut Random) -> Result<(), Fault> {
    text.open("{")?;
    text.string_member("type", "Feature")?;
    text.name("geometry")?;
    if random.one_in(12) {
        write_collection(text, random)?;
    } else {
        write_geometry(text, random)?;
    }
    text.name("properties")?;
    text.open("{")?;
    text.word_member("name", random)?;
    text.whole_member("population", random.below(1_000_000))?;
    text.name("capital")?;
    text.truth(random.one_in(50))?;
    if random.one_in(2) {
        text.name("tags")?;
        text.word_list(random, 3)?;
        text.name("elevation")?;
        text.signed_decimal(random, 30_000_000)?;
        text.name("source")?;
        text.open("{")?;
        text.word_member("survey", random)?;
        text.close("}")?;
    }
    text.close("}")?;
    Ok(text.close("}")?)
}

fn write_collection(text: &mut JsonText, random: &mut Random) -> Result<(), Fault> {
    text.open("{")?;
    text.string_member("type", "GeometryCollection")?;
    text.name("geometries")?;
    text.open("[")?;
    for _ in 0..random.below(4) {
        write_geometry(text, random)?;
    }
    text.close("]")?;
    Ok(text.close("}")?)
}

fn write_geometry(text: &mut JsonText, random: &mut Random) -> Result<(), Fault> {
    let kind = random.below(10);
    let name = match kind {
        0 => "MultiPoint",
        1 => "LineString",
        2 => "MultiLineString",
        3 | 4 => "Polygon",
        5 => "MultiPolygon",
        _ => "Point",
    };
    text.open("{")?;
    text.string_member("type", name)?;
    text.name("coordinates")?;
    match kind {
        0 | 1 => write_line(text, random)?,
        2..=4 => write_lines(text, random)?,
        5 => {
            text.open("[")?;
            write_lines(text, random)?;
            write_lines(text, random)?;
            text.close("]")?;
        }
        _ => write_position(text, random)?,
    }
    Ok(text.close("}")?)
}

fn write_lines(text: &mut JsonText, random: &mut Random) -> Result<(), Fault> {
    text.open("[")?;
    write_line(text, random)?;
    if random.one_in(3) {
        write_line(text, random)?;
    }
    Ok(text.close("]")?)
}

fn write_line(text: &mut JsonText, random: &mut Random) -> Result<(), Fault> {
    text.open("[")?;
    for _ in 0..random.below(6).wrapping_add(2) {
        write_position(text, random)?;
    }
    Ok(text.close("]")?)
}

fn write_position(text: &mut JsonText, random: &mut Random) -> Result<(), Fault> {
    text.open("[")?;
    text.signed_decimal(random, 1_800_000)?;
    text.signed_decimal(random, 900_000)?;
    Ok(text.close("]")?)
}
