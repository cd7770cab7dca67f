//! The names of tags, by their numbers.
ghost use Rattle.std.specs.Prelude.{◌≡◌, ◌+◌, ◌<◌, ◌≤◌, [], map, length, slice_get, IfOk, OnOk, option_map};
ghost use Rattle.asm_reader.specs.TagViews.{tag_names};
ghost use Rattle.asm_reader.specs.WordViews.{bytes_value};
ghost use Rattle.asm_reader.specs.Tags as spec;

use std::alloc::{AllocError, Global};

/// The names of tags; the number of a tag is the place of its name.
#[derive(Drop)]
pub struct Tags<'a> {
    pub(crate) names: Vec<&'a str>,
}

// The place of a name among names, and the number behind the last where it is none of them.
#[tactic(auto, unfolding(crate::specs::Tags::place_of))]
fn place_of(names: &[&str], name: &str) -> usize
    ensures place { result ≡ spec.place_of name.now (map (λ known. known.now) names.now) }
    ensures most { result ≤ length names.now }
{
    let Some((first, names)) = names.split_first() else {
        return 0;
    };
    if *first == name {
        return 0;
    }
    1 + place_of(names, name)
}

impl<'a> Tags<'a> {
    /// No tags.
    pub(crate) fn new(alloc: Global) -> Tags<'a>
        ensures { tag_names result ≡ [] }
    {
        Tags {
            names: Vec::new(alloc),
        }
    }

    /// The number of a name, which is a new one where it is none of those before it.
    fn number(&mut self, name: &'a str) -> Result<u16, AllocError>
        requires { length self.old.names.items < 65536 }
        ensures number { IfOk result (λ n. n ≡ spec.place_of name.now (tag_names self.old)) }
        ensures names { OnOk result (tag_names self.new ≡ spec.with_name name.now (tag_names self.old)) }
        ensures most { length self.new.names.items ≤ length self.old.names.items + 1 }
    {
        let place = place_of(&self.names, name);
        if place == self.names.len() {
            self.names.push(name)?;
        }
        Ok(place as u16)
    }

    /// The number of the name of a tag, where one is said.
    pub(crate) fn number_of(&mut self, name: Option<&'a str>) -> Result<Option<u16>, AllocError>
        requires { length self.old.names.items < 65536 }
        ensures number { IfOk result
            (λ n. n ≡ option_map (λ t. spec.place_of t (tag_names self.old)) (bytes_value name.entry)) }
        ensures names { OnOk result
            (tag_names self.new ≡ spec.with_tag (bytes_value name.entry) (tag_names self.old)) }
        ensures most { length self.new.names.items ≤ length self.old.names.items + 1 }
    {
        let Some(name) = name else {
            return Ok(None);
        };
        Ok(Some(self.number(name)?))
    }

    /// The name of a tag.
    pub fn name(&self, number: u16) -> Option<&'a str>
        ensures { bytes_value result ≡ slice_get (tag_names self.now) number }
    {
        self.names.get(usize::from(number)).copied()
    }
}
