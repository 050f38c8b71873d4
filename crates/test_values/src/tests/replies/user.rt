//! A type of a user's own, with its own grammar: as arguments, and inside lists, options, tables and
//! the fields of entries.
ghost use Rattle.std.specs.Prelude.{◌≡◌, Bool, [], ◌∷◌, refl};
ghost use Rattle.redis_resp.specs.Value.{tree};
ghost use Rattle.redis_resp.specs.declared.value.error.ParsingError.TheVariants.{NotText};
ghost use Rattle.test_values.specs.Flag.{flag_in, flag_reading, flag_word};

use crate::check_value;
use crate::tests::{check, check_same};
use indexmap::IndexMap;
use redis_resp::{
    FromRedisValue, ParsingError, RedisWrite, ToRedisArgs, ToSingleRedisArg, Value, WriteError,
    from_redis_value,
};
use redis_streams::{StreamId, StreamRangeReply};
use std::alloc::Global;
use std::process::Abort;
use stream_options::StreamReadOptions;
use test_notation::read_value;

/// `yes` or `no`.
#[derive(Debug, Drop)]
struct Flag(bool);

impl ToRedisArgs for Flag {
    ghost args = { λ flag. flag_word flag.0 ∷ [] };

    fn write_redis_args<W: RedisWrite>(&self, out: &mut W) -> Result<(), WriteError> {
        if self.0 {
            out.write_arg(b"yes")
        } else {
            out.write_arg(b"no")
        }
    }
}

impl ToSingleRedisArg for Flag {
    ghost single = { λ _. refl };
}

/// Parses a word as a flag.
fn flag_of_word(word: &[u8]) -> Option<bool>
    ensures { result ≡ flag_in word.now }
{
    if word == b"yes".as_slice() {
        Some(true)
    } else if word == b"no".as_slice() {
        Some(false)
    } else {
        None
    }
}

/// Reads a value as a flag.
fn flag_of(v: &Value) -> Option<bool>
    ensures { result ≡ flag_reading (tree v.now) }
{
    match v.as_plain() {
        Value::BulkString(bytes) => flag_of_word(bytes),
        Value::SimpleString(text) => flag_of_word(text.as_bytes()),
        Value::VerbatimString { text, .. } => flag_of_word(text.as_bytes()),
        _ => None,
    }
}

/// A text that is `yes` or `no`; `NotText` for each other value.
impl FromRedisValue for Flag {
    ghost Meaning = { Bool };

    ghost meaning = { λ flag. flag.0 };

    ghost reading = { flag_reading };

    ghost may_refuse = { λ _ error. error ≡ NotText };

    fn from_redis_value(_alloc: Global, v: Value) -> Result<Flag, ParsingError> {
        match flag_of(&v) {
            Some(flag) => Ok(Flag(flag)),
            None => Err(ParsingError::NotText),
        }
    }

    fn from_redis_value_ref(_alloc: Global, v: &Value) -> Result<Flag, ParsingError> {
        match flag_of(v) {
            Some(flag) => Ok(Flag(flag)),
            None => Err(ParsingError::NotText),
        }
    }
}

/// Values, and the result of reading each as a flag: texts of each kind, with attributes, and other values.
const FLAGS: [(&str, &str); 10] = [
    ("yes", "Ok(Flag(true))"),
    ("Simple(no)", "Ok(Flag(false))"),
    ("Verbatim(txt, yes)", "Ok(Flag(true))"),
    ("Okay", "Err(NotText)"),
    ("Int 1", "Err(NotText)"),
    ("Attr(no)", "Ok(Flag(false))"),
    ("Yes", "Err(NotText)"),
    ("Bytes(255)", "Err(NotText)"),
    ("Nil", "Err(NotText)"),
    ("Array[yes]", "Err(NotText)"),
];

#[test]
fn texts_of_each_kind_are_read_as_flags(rt: HostRuntime) {
    for (notation, shown) in &FLAGS {
        check_value::<Flag>(&rt, notation, shown);
    }
}

/// Values, and the result of reading each as a list of flags.
const LISTS: [(&str, &str); 5] = [
    (
        "Array[yes, Attr(no), Simple(yes)]",
        "Ok([Flag(true), Flag(false), Flag(true)])",
    ),
    ("Nil", "Ok([])"),
    ("Array[yes, on]", "Err(NotText)"),
    ("Array[yes, Int 1]", "Err(NotText)"),
    ("yes", "Err(NotList)"),
];

#[test]
fn lists_of_flags_are_read(rt: HostRuntime) {
    for (notation, shown) in &LISTS {
        check_value::<Vec<Flag>>(&rt, notation, shown);
    }
}

#[test]
fn options_and_tables_of_flags_are_read(rt: HostRuntime) {
    check_value::<Option<Flag>>(&rt, "Nil", "Ok(None)");
    check_value::<Option<Flag>>(&rt, "no", "Ok(Some(Flag(false)))");
    check_value::<Option<Flag>>(&rt, "No", "Err(NotText)");
    let shown = "Ok({\"a\": Flag(true), \"b\": Flag(false)})";
    check_value::<IndexMap<String, Flag>>(&rt, "Map[a: yes, b: no]", shown);
}

/// The field of this name.
fn field<T: FromRedisValue>(
    rt: &(impl AllocGlobal + Abort),
    entry: &StreamId,
    name: &str,
) -> Option<T> {
    entry.get::<T>(rt.alloc(), name).expect(rt, "memory")
}

/// Checks the flags of the entry with the fields `f`, `yes`; `g`, `on`; `n`, `7`; and `e`, which is nil.
fn check_flags(rt: &(impl AllocGlobal + Abort), entry: &StreamId) {
    let flag = field::<Flag>(rt, entry, "f");
    assert!(rt; matches!(flag, Some(Flag(true))));
    for name in ["g", "n", "h"] {
        assert!(rt; field::<Flag>(rt, entry, name).is_none(), "{name}");
    }
}

/// Checks the fields of the same entry, read as other types.
fn check_others(rt: &(impl AllocGlobal + Abort), entry: &StreamId) {
    check_same(rt, field::<u16>(rt, entry, "n"), Some(7));
    check_same(rt, field::<u16>(rt, entry, "h"), None);
    assert!(rt; field::<Vec<Value>>(rt, entry, "n").is_none());
    let none = field::<Option<String>>(rt, entry, "e");
    assert!(rt; matches!(none, Some(None)));
}

#[test]
fn fields_are_read_as_flags(rt: HostRuntime) {
    let notation = "Array[Array[1-0, Array[f, yes, g, on, n, 7, e, Nil]]]";
    let value = read_value(rt.alloc(), notation).expect(&rt, "a value");
    let range = from_redis_value::<StreamRangeReply>(rt.alloc(), value).expect(&rt, "a range");
    check_same(&rt, range.ids.len(), 1);
    for entry in &range.ids {
        check_flags(&rt, entry);
        check_others(&rt, entry);
    }
}

#[test]
fn flags_are_written(rt: HostRuntime) {
    let flags = vec![in rt.alloc(); Flag(true), Flag(false)];
    check(&rt, &flags.expect(&rt, "memory"), "yes no");
    check(&rt, &Some(Flag(false)), "no");
    check(&rt, &&Flag(true), "yes");
    let options = StreamReadOptions::default().group(rt.alloc(), 7u64, Flag(true));
    check(&rt, &options.expect(&rt, "memory"), "GROUP 7 yes");
}
