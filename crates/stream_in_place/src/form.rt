//! The forms of streams and rows in a reply.
ghost use Rattle.std.specs.Prelude.{◌≡◌};
ghost use Rattle.stream_in_place.specs.Forms.{is_claim};

/// The form of the streams in a reply.
#[derive(Clone, Copy)]
pub enum Spelling {
    /// An array of arrays, each of a name and rows.
    Array,
    /// A map of names to rows, as in RESP3.
    Map,
}

/// The form of the rows in a reply.
#[derive(Clone, Copy)]
pub enum Form {
    /// Each row is an id and fields.
    Standard,
    /// Each is an id, fields and the two numbers of its delivery.
    Claim,
}

impl Form {
    /// Whether a row has the delivery.
    pub fn tells_delivery(self) -> bool
        ensures { result ≡ is_claim self }
    {
        match self {
            Form::Standard => false,
            Form::Claim => true,
        }
    }
}
