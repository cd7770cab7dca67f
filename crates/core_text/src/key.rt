//! Keys of refusals while a document is read: they borrow its texts.
ghost use Rattle.std.specs.Prelude.{◌≡◌, IfOk, string_bytes};
ghost use Rattle.core_text.specs.Refusal.{refusal_of};
ghost use Rattle.core_text.specs.KeyViews.{spelled, stop_refusal, Tells};

use crate::{CoreErr, CoreReason, KeyText};
use std::alloc::{AllocError, Global};

/// A table of a document.
#[derive(Clone, Copy)]
pub(crate) enum Place<'t> {
    /// The document itself.
    Document,
    /// The entry of a class.
    Class(&'t str),
    /// The entry of a forward, counted from 0.
    Forward(usize),
}

/// What a refusal names.
#[derive(Clone, Copy)]
pub(crate) enum Key<'t> {
    /// A table as a whole.
    Whole(Place<'t>),
    /// A key of a table.
    Field(Place<'t>, &'t str),
}

/// Why reading stops.
#[derive(Clone, Copy)]
pub(crate) enum Stop<'t> {
    /// The document is refused at a key.
    Refused { reason: CoreReason, key: Key<'t> },
    /// Memory ran out.
    NoMemory,
}

/// The text of a key.
fn key_text(alloc: Global, key: Key<'_>) -> Result<String, AllocError>
    ensures { IfOk result (λ text. string_bytes text ≡ spelled key.entry) }
{
    match key {
        Key::Whole(Place::Document) => String::from_str(alloc, ""),
        Key::Whole(Place::Class(class)) => format!(in alloc; "class.{class}"),
        Key::Whole(Place::Forward(place)) => format!(in alloc; "forward.{place}"),
        Key::Field(Place::Document, name) => String::from_str(alloc, name),
        Key::Field(Place::Class(class), name) => format!(in alloc; "class.{class}.{name}"),
        Key::Field(Place::Forward(place), name) => format!(in alloc; "forward.{place}.{name}"),
    }
}

/// A refusal with its key as a text of its own.
pub(crate) fn told(alloc: Global, stop: Stop<'_>) -> CoreErr
    ensures { Tells (stop_refusal stop.entry) (refusal_of result) }
{
    let Stop::Refused { reason, key } = stop else {
        return CoreErr::NoMemory;
    };
    let Ok(text) = key_text(alloc, key) else {
        return CoreErr::NoMemory;
    };
    CoreErr::Refused {
        reason,
        key: KeyText::new(text),
    }
}
