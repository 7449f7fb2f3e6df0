//! Calls on paths and resolutions that are made by hand.

use crate::answer::{Answer, BAR, Line};
use crate::catalogue::Catalogue;
use crate::error_by_hand::ErrorByHand;
use crate::resolution::{add_refusal, of_resolution};
use facet_solver::{
    Field, FieldCategory, FieldInfo, FieldPath, KeyPath, PathSegment, Resolution, SchemaError,
    ShapeId,
};
use std::alloc::{AllocError, Global};
use std::mem;

/// A path that grows, the resolution that calls are about, the one that it may be merged with, and
/// the lists of an error.
#[derive(Drop)]
pub struct Hand<'c> {
    catalogue: Catalogue<'c>,
    field: &'c Field,
    path: FieldPath<'c>,
    resolution: Resolution<'c>,
    other: Resolution<'c>,
    error: ErrorByHand<'c>,
}

impl<'c> Hand<'c> {
    /// Nothing made yet. Each field to be made stands for this declared one.
    pub fn new(catalogue: Catalogue<'c>, field: &'c Field, alloc: Global) -> Self {
        Hand {
            catalogue,
            field,
            path: FieldPath::empty(alloc),
            resolution: Resolution::new(alloc),
            other: Resolution::new(alloc),
            error: ErrorByHand::new(alloc),
        }
    }

    /// Makes calls, up to the first that does not answer what is wanted.
    pub fn make_all<'t: 'c>(&mut self, calls: &[Line<'t>], answer: &mut Answer<'t>) {
        for line in calls {
            self.make(*line, answer);
            if !answer.holds() {
                break;
            }
        }
    }

    /// Makes a call, and compares its answer with what is wanted. Where it runs out of memory it
    /// has to change nothing, and is made again.
    fn make<'t: 'c>(&mut self, line: Line<'t>, answer: &mut Answer<'t>) {
        answer.begin(line);
        self.add_state(answer);
        answer.keep_state();
        self.answer(answer);
        if answer.begins_again() {
            self.add_state(answer);
            answer.compare_state();
            self.answer(answer);
        }
        answer.compare();
    }

    /// Tells all that calls change: the path and both resolutions.
    fn add_state(&self, answer: &mut Answer<'_>) {
        answer.add_value(&self.path);
        answer.add_debug(&self.resolution);
        answer.add_debug(&self.other);
    }

    /// Answers a call. Where memory runs out it may be made again: what it is about is as it was.
    fn answer<'t: 'c>(&mut self, answer: &mut Answer<'t>) {
        match answer.word() {
            "add_field" => self.add_field(answer),
            "set_catch_all_map" => self.set_catch_all_map(answer),
            "add_key_path" => self.add_key_path(answer),
            "add_variant_selection" => self.add_variant_selection(answer),
            "error" => self.error.add(answer),
            "no_match" => self.no_match(answer),
            BAR => answer.add_error(),
            call => self.other_answer(call, answer),
        }
    }

    /// Answers a call that needs no words, or one that is about the path, or that reads the
    /// resolution.
    fn other_answer<'t: 'c>(&mut self, call: &str, answer: &mut Answer<'t>) {
        match call {
            "mark_all_optional" => {
                self.resolution.mark_all_optional();
                answer.add("ok");
            }
            "merge" => {
                let merged = self.resolution.merge(&self.other);
                add_outcome(merged, answer);
            }
            "other" => {
                mem::swap(&mut self.resolution, &mut self.other);
                answer.add("ok");
            }
            "root" | "parent" | "push_field" | "push_variant" => self.go(call, answer),
            "last" => self.add_last(answer),
            _ => of_resolution(self.catalogue, &self.resolution, call, answer),
        }
    }

    /// The error of the lists so far, which are then empty again.
    fn no_match(&mut self, answer: &mut Answer<'_>) {
        let lists = mem::replace(&mut self.error, ErrorByHand::new(answer.alloc));
        answer.keep_error(&lists.into_error());
        answer.add("ok");
    }

    /// Goes to another path.
    fn go<'t: 'c>(&mut self, call: &str, answer: &mut Answer<'t>) {
        let alloc = answer.alloc;
        let next = match call {
            "push_field" => self.path.push_field(alloc, answer.word()),
            "push_variant" => {
                let field = answer.word();
                self.path.push_variant(alloc, field, answer.word())
            }
            "parent" => self.path.parent(alloc),
            _ => Ok(FieldPath::empty(alloc)),
        };
        match next {
            Ok(path) => {
                answer.add_value(&path.depth());
                answer.add_value(&path);
                drop(mem::replace(&mut self.path, path));
            }
            Err(AllocError) => answer.refused(),
        }
    }

    fn add_last(&self, answer: &mut Answer<'_>) {
        match self.path.last() {
            Some(PathSegment::Field(name)) => answer.add_all(&["field", name]),
            Some(PathSegment::Variant(field, name)) => answer.add_all(&["variant", field, name]),
            None => answer.add("none"),
        }
    }

    /// A field at the path.
    fn info(
        &self,
        category: FieldCategory,
        name: &'c str,
        answer: &mut Answer<'_>,
    ) -> Option<FieldInfo<'c>> {
        let path = self.copied_path(answer)?;
        Some(FieldInfo {
            serialized_name: name,
            path,
            required: answer.next_word() == "required",
            value_shape: ShapeId::new(0),
            field: self.field,
            category,
        })
    }

    fn copied_path(&self, answer: &mut Answer<'_>) -> Option<FieldPath<'c>> {
        match Vec::from_slice(answer.alloc, self.path.segments()) {
            Ok(segments) => Some(FieldPath::from(segments)),
            Err(AllocError) => {
                answer.refused();
                None
            }
        }
    }

    fn add_field<'t: 'c>(&mut self, answer: &mut Answer<'t>) {
        let category = answer.category();
        let name = answer.word();
        if let Some(info) = self.info(category, name, answer) {
            let added = self.resolution.add_field(info);
            add_outcome(added, answer);
        }
    }

    fn set_catch_all_map<'t: 'c>(&mut self, answer: &mut Answer<'t>) {
        let category = answer.category();
        let name = answer.word();
        if let Some(info) = self.info(category, name, answer) {
            let set = self.resolution.set_catch_all_map(category, info);
            add_done(set, answer);
        }
    }

    fn add_variant_selection<'t: 'c>(&mut self, answer: &mut Answer<'t>) {
        let enumeration = answer.word();
        let variant = answer.word();
        if let Some(path) = self.copied_path(answer) {
            let added = self
                .resolution
                .add_variant_selection(path, enumeration, variant);
            add_done(added, answer);
        }
    }

    fn add_key_path<'t: 'c>(&mut self, answer: &mut Answer<'t>) {
        let mut path: KeyPath<'c> = Vec::new(answer.alloc);
        for _ in 0..usize::MAX {
            let name = answer.next_word();
            if name.is_empty() {
                break;
            }
            answer.push(&mut path, name);
        }
        let added = self.resolution.add_key_path(path);
        add_done(added, answer);
    }
}

fn add_outcome(outcome: Result<(), SchemaError<'_>>, answer: &mut Answer<'_>) {
    match outcome {
        Ok(()) => answer.add("ok"),
        Err(error) => add_refusal(&error, answer),
    }
}

fn add_done(outcome: Result<(), AllocError>, answer: &mut Answer<'_>) {
    match outcome {
        Ok(()) => answer.add("ok"),
        Err(AllocError) => answer.refused(),
    }
}
