//! How the bytes of a reply of XREADGROUP are read, and which form they have.
ghost use Rattle.std.specs.Prelude.{◌≡◌};
ghost use Rattle.test_costs.specs.Bytes.{form_named, reading_named};

use crate::answer::Form;

/// How the reply is read.
#[derive(Clone, Copy)]
pub enum Reading {
    /// The reply is not read, but written to standard output.
    Print,
    /// The offsets of all parts are found in place.
    Places,
    /// Each id, name and value is read too, in place.
    Fields,
    /// Two fields of each entry are got by name, in place.
    Gets,
    /// A stream is fed the reply in one piece. Its length and the offsets of all parts are found in place.
    Received,
    /// The value is decoded, and no record is made.
    Decoded,
    /// The record is made, and all that `Fields` reads is read.
    Copied,
    /// A stream is fed this number of replies and then returns them, again and again.
    Fed(u32),
    /// A stream is fed this number of replies byte by byte, and asked for a reply after each byte.
    FedBytes(u32),
}

/// A reading that is repeated.
#[derive(Clone, Copy)]
pub struct BytesJob {
    pub reading: Reading,
    /// The number of repetitions.
    pub calls: u32,
    /// The entries of the reply.
    pub entries: u32,
    pub form: Form,
}

impl Reading {
    /// Returns the reading of this name.
    pub fn named(name: &str) -> Option<Reading>
        ensures { result ≡ reading_named name.now }
    {
        match name {
            "print" => Some(Reading::Print),
            "places" => Some(Reading::Places),
            "fields" => Some(Reading::Fields),
            "gets" => Some(Reading::Gets),
            "received" => Some(Reading::Received),
            "decoded" => Some(Reading::Decoded),
            "copied" => Some(Reading::Copied),
            "fed" => Some(Reading::Fed(10)),
            "fed-bytes" => Some(Reading::FedBytes(10)),
            "fed-one" => Some(Reading::Fed(1)),
            "fed-one-bytes" => Some(Reading::FedBytes(1)),
            _ => None,
        }
    }
}

/// Returns the form of this name.
pub fn form_of(name: &str) -> Option<Form>
    ensures { result ≡ form_named name.now }
{
    match name {
        "array" => Some(Form::Array),
        "map" => Some(Form::Map),
        _ => None,
    }
}
