//! Cores, and what they tell.
ghost use Rattle.std.specs.Prelude.{◌≡◌, ◌≤◌, ◌<◌, ◌==◌, IsTrue, IfSome, map, length, option_map, string_bytes};
ghost use Rattle.std.specs.List.{list_all};
ghost use Rattle.sl_model.specs.Token.{is_unit_name};
ghost use Rattle.core_text.specs.Core as spec;
ghost use Rattle.core_text.specs.Core.{entry_of, is_sound_entry, is_sound_forward, IsCore};

use sl_model::schedule::Forward;
use std::marker::Model;

/// The most items that a core issues in a cycle.
pub const MOST_WIDTH: u8 = 8;

/// The most units of a core.
pub const MOST_UNITS: usize = 16;

/// The greatest number of cycles in a core table.
pub const MOST_CYCLES: u8 = 255;

/// The greatest operand of a forward: operands are counted from 0.
pub const MOST_OPERAND: u8 = 3;

/// What a core tells of a class of instructions.
#[derive(Drop)]
pub struct ClassEntry {
    class: u8,
    units: Vec<u8>,
    busy: u8,
    latency: u8,
    writeback: u8,
}

impl Model for ClassEntry {
    ghost use Rattle.core_text.specs.Core.{ClassCost};

    ghost Value = { ClassCost };

    ghost view = { λ e. record {
      class = e.class;
      units = e.units.items;
      busy = e.busy;
      latency = e.latency;
      writeback = e.writeback;
    } };
}

impl ClassEntry {
    /// What is told of a class.
    pub(crate) fn new(class: u8, units: Vec<u8>, busy: u8, latency: u8, writeback: u8) -> ClassEntry
        ensures { result ≡ record {
          class = class;
          units = units.items;
          busy = busy;
          latency = latency;
          writeback = writeback;
        } }
    {
        ClassEntry {
            class,
            units,
            busy,
            latency,
            writeback,
        }
    }

    /// The number of the class.
    pub fn class(&self) -> u8
        ensures { result ≡ self.now.class }
    {
        self.class
    }

    /// The numbers of the units that take its items, in the order in which they are tried.
    pub fn units(&self) -> &[u8]
        ensures { result.now ≡ self.now.units }
    {
        &self.units
    }

    /// How many cycles an item keeps its unit.
    pub fn busy(&self) -> u8
        ensures { result ≡ self.now.busy }
    {
        self.busy
    }

    /// After how many cycles a result is ready.
    pub fn latency(&self) -> u8
        ensures { result ≡ self.now.latency }
    {
        self.latency
    }

    /// After how many cycles a written-back base is ready.
    pub fn writeback(&self) -> u8
        ensures { result ≡ self.now.writeback }
    {
        self.writeback
    }
}

/// A core: how many items it issues in a cycle, the names of its units, what it tells of the
/// classes that have an entry, and its forwards.
#[derive(Drop)]
pub struct Core {
    width: u8,
    units: Vec<String>,
    classes: Vec<ClassEntry>,
    forwards: Vec<Forward>,
}

impl Model for Core {
    ghost use Rattle.std.specs.Prelude.{map, string_bytes};
    ghost use Rattle.core_text.specs.Core.{CoreTable, IsCore};

    ghost Value = { CoreTable };

    ghost view = { λ c. record {
      width = c.width;
      units = map string_bytes c.units.items;
      classes = c.classes.items;
      forwards = c.forwards.items;
    } };

    ghost invariant = { λ c. IsCore (record {
      width = c.width;
      units = map string_bytes c.units.items;
      classes = c.classes.items;
      forwards = c.forwards.items;
    }) };
}

impl Core {
    /// A core of its parts.
    pub(crate) fn new(
        width: u8,
        units: Vec<String>,
        classes: Vec<ClassEntry>,
        forwards: Vec<Forward>,
    ) -> Core
        requires { IsCore (record {
          width = width;
          units = map string_bytes units.items;
          classes = classes.items;
          forwards = forwards.items;
        }) }
        ensures { result ≡ record {
          width = width;
          units = map string_bytes units.items;
          classes = classes.items;
          forwards = forwards.items;
        } }
    {
        Core {
            width,
            units,
            classes,
            forwards,
        }
    }

    /// How many items are issued in a cycle at most, from 1 to 8.
    pub fn width(&self) -> u8
        ensures width { result ≡ self.now.width }
        ensures least { 1 ≤ result }
        ensures most { result ≤ 8 }
    {
        self.width
    }

    /// How many units there are, from 1 to 16.
    pub fn unit_count(&self) -> u8
        ensures count { result ≡ length self.now.units }
        ensures least { 1 ≤ result }
        ensures most { result ≤ 16 }
    {
        self.units.len() as u8
    }

    /// The name of a unit, by its number.
    pub fn unit_name(&self, unit: u8) -> &str
        requires { unit < length self.now.units }
        ensures name { result.now ≡ spec.unit_name self.now unit }
        ensures shape { IsTrue (is_unit_name result.now) }
    {
        self.units[usize::from(unit)].as_str()
    }

    /// What is told of a class; None exactly where it has no entry.
    #[tactic(auto, unfolding(crate::specs::Core::entry_of))]
    pub fn entry(&self, class: u8) -> Option<&ClassEntry>
        ensures entry { option_map (λ e. e.now) result ≡ entry_of self.now class }
        ensures sound { IfSome result (λ e. IsTrue (is_sound_entry (length self.now.units) e.now)) }
        ensures few { length self.now.units ≤ 16 }
    {
        self.classes.iter().find(|entry| entry.class == class)
    }

    /// The unit at a place, counted from 0, of a class's own list; None exactly where the class
    /// has no entry, or its list ends before that place.
    #[tactic(auto, unfolding(crate::specs::Core::class_unit))]
    pub fn class_unit(&self, class: u8, place: u8) -> Option<u8>
        ensures unit { result ≡ spec.class_unit self.now class place }
        ensures known { IfSome result (λ unit. unit < length self.now.units) }
    {
        let Some(entry) = self.entry(class) else {
            return None;
        };
        entry.units.get(usize::from(place)).copied()
    }

    /// The forwards.
    pub fn forwards(&self) -> &[Forward]
        ensures forwards { result.now ≡ self.now.forwards }
        ensures sound { IsTrue (list_all is_sound_forward result.now) }
    {
        &self.forwards
    }
}
