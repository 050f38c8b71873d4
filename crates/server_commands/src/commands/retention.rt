//! The options of XADD and XTRIM.
ghost use Rattle.std.specs.Prelude.{◌≡◌, ◌≤◌, ◌∷◌, ℕ, List, codes, length, true, IfOk, IfSome, Ok, Some};
ghost use Rattle.server_commands.specs.Adding.{id_alone};
ghost use Rattle.server_commands.specs.IdWords.{Fits, texts_of};
ghost use Rattle.server_commands.specs.Nodes.{limit_of, usual_limit};
ghost use Rattle.server_commands.specs.declared.commands.new_ids.NewId.TheVariants.{Automatic, Given};
ghost use Rattle.server_store.specs.EntryId.{id_text};
ghost use Rattle.server_store.specs.declared.entry_id.EntryId.{EntryId};

use super::id_words::id;
use super::new_ids::{NewId, new_id};
use super::words::is_word;
use super::{INVALID_ID, SYNTAX, require_integer};
use crate::refusal::Refusal;
use server_store::{Bound, Trim};

/// The options of XADD and XTRIM.
#[derive(Clone, Copy)]
pub(super) struct Retention {
    /// Whether a stream is created if it does not exist.
    pub(super) makes_stream: bool,
    /// How the stream is trimmed.
    pub(super) trim: Option<Trim>,
    /// The id of XADD.
    pub(super) id: NewId,
    /// How many arguments they are, the id of XADD included.
    pub(super) len: usize,
}

/// The options while they are parsed.
#[derive(Clone, Copy)]
struct Draft {
    makes_stream: bool,
    bound: Option<Bound>,
    is_approximate: bool,
    limit: Option<u64>,
    id: Option<NewId>,
}

/// `[NOMKSTREAM] [MAXLEN | MINID [= | ~] threshold [LIMIT count]]`, and for XADD the id, in any
/// order before the id. A node has at most `node_entries` entries.
pub(super) fn retention_in(
    words: &[Vec<u8>],
    is_add: bool,
    node_entries: u64,
) -> Result<Retention, Refusal>
    ensures len { IfOk result (λ r. r.len ≤ length words.now) }
    ensures given { (id : EntryId) (others : List (List ℕ)) → is_add ≡ true → Fits id
        → texts_of words.now ≡ id_text id ∷ others → result ≡ Ok (id_alone (Given id)) }
    ensures automatic { (others : List (List ℕ)) → is_add ≡ true
        → texts_of words.now ≡ codes "*" ∷ others → result ≡ Ok (id_alone Automatic) }
{
    if let Some(id) = parse_front_id(words, is_add) {
        return Ok(Retention {
            makes_stream: true,
            trim: None,
            id,
            len: 1,
        });
    }
    let mut draft = Draft {
        makes_stream: true,
        bound: None,
        is_approximate: false,
        limit: None,
        id: None,
    };
    let rest = read_options(&mut draft, words, is_add)?;
    let trim = make_trim(&draft, is_add, node_entries)?;
    Ok(Retention {
        makes_stream: draft.makes_stream,
        trim,
        id: draft.id.unwrap_or(NewId::Automatic),
        len: words.len().saturating_sub(rest.len()),
    })
}

/// The id of XADD, if no option is before it.
fn parse_front_id(words: &[Vec<u8>], is_add: bool) -> Option<NewId>
    ensures len { IfSome result (λ _. 1 ≤ length words.now) }
    ensures given { (id : EntryId) (others : List (List ℕ)) → is_add ≡ true → Fits id
        → texts_of words.now ≡ id_text id ∷ others → result ≡ Some (Given id) }
    ensures automatic { (others : List (List ℕ)) → is_add ≡ true
        → texts_of words.now ≡ codes "*" ∷ others → result ≡ Some Automatic }
{
    match words {
        [word, ..] if is_add => new_id(word),
        _ => None,
    }
}

/// Parses the options, up to the id of XADD, and returns the words after them.
fn read_options<'a>(
    draft: &mut Draft,
    words: &'a [Vec<u8>],
    is_add: bool,
) -> Result<&'a [Vec<u8>], Refusal> {
    let mut rest = words;
    for _ in 0..words.len() {
        if draft.id.is_some() || rest.is_empty() {
            break;
        }
        rest = parse_option(draft, rest, is_add)?;
    }
    Ok(rest)
}

/// Parses one option, and returns the words after it.
fn parse_option<'a>(
    draft: &mut Draft,
    words: &'a [Vec<u8>],
    is_add: bool,
) -> Result<&'a [Vec<u8>], Refusal> {
    let [word, behind @ ..] = words else {
        return Ok(words);
    };
    match behind {
        [_, ..] if is_word(word, "maxlen") || is_word(word, "minid") => {
            parse_bound(draft, word, behind)
        }
        [text, after @ ..] if is_word(word, "limit") => {
            draft.limit = Some(parse_limit(text)?);
            Ok(after)
        }
        _ if is_add => {
            put_word(draft, word)?;
            Ok(behind)
        }
        _ => Err(SYNTAX),
    }
}

/// Parses the bound of this name, and returns the words after it.
fn parse_bound<'a>(
    draft: &mut Draft,
    word: &[u8],
    words: &'a [Vec<u8>],
) -> Result<&'a [Vec<u8>], Refusal> {
    if draft.bound.is_some() {
        return Err(Refusal::Fixed(TWO_BOUNDS));
    }
    let (mode, threshold, after) = parse_threshold(words)?;
    draft.is_approximate = mode;
    draft.bound = Some(make_bound(word, threshold)?);
    Ok(after)
}

/// The number of LIMIT.
fn parse_limit(text: &[u8]) -> Result<u64, Refusal> {
    match u64::try_from(require_integer(text)?) {
        Ok(limit) => Ok(limit),
        Err(_) => Err(Refusal::Fixed("ERR The LIMIT argument must be >= 0.")),
    }
}

/// Parses a word of XADD without a value: NOMKSTREAM or the id.
fn put_word(draft: &mut Draft, word: &[u8]) -> Result<(), Refusal> {
    if is_word(word, "nomkstream") {
        draft.makes_stream = false;
    } else {
        draft.id = Some(new_id(word).ok_or(INVALID_ID)?);
    }
    Ok(())
}

const TWO_BOUNDS: &str = "ERR syntax error, MAXLEN and MINID options at the same time \
    are not compatible";

const LIMIT_ALONE: &str = "ERR syntax error, LIMIT cannot be used without specifying \
    a trimming strategy";

const LIMIT_EXACT: &str = "ERR syntax error, LIMIT cannot be used without the special ~ option";

/// How the stream is trimmed, or why the options exclude each other.
fn make_trim(draft: &Draft, is_add: bool, node_entries: u64) -> Result<Option<Trim>, Refusal>
    ensures limit { IfOk result (λ trim. IfSome trim (λ t. t.limit
        ≡ limit_of draft.now.limit draft.now.is_approximate node_entries)) }
{
    let Some(bound) = draft.bound else {
        if matches!(draft.limit, Some(limit) if limit != 0) {
            return Err(Refusal::Fixed(LIMIT_ALONE));
        }
        if is_add && draft.limit.is_some() {
            return Err(Refusal::Fixed(LIMIT_EXACT));
        }
        return Ok(None);
    };
    if draft.limit.is_some() && !draft.is_approximate {
        return Err(Refusal::Fixed(LIMIT_EXACT));
    }
    let usual = if draft.is_approximate {
        compute_usual_limit(node_entries)
    } else {
        0
    };
    Ok(Some(Trim {
        bound,
        is_approximate: draft.is_approximate,
        limit: draft.limit.unwrap_or(usual),
    }))
}

/// The limit of `~` without LIMIT, if a node has at most `node_entries` entries: a hundred nodes, at most
/// 1,000,000 entries; 10,000 entries if a node has any number.
fn compute_usual_limit(node_entries: u64) -> u64
    ensures { result ≡ usual_limit node_entries }
{
    match node_entries {
        0 => 10_000,
        1..=9_999 => 100 * node_entries,
        _ => 1_000_000,
    }
}

/// `[= | ~] threshold`: whether it is `~`, the threshold, and the arguments after it.
fn parse_threshold(words: &[Vec<u8>]) -> Result<(bool, &[u8], &[Vec<u8>]), Refusal> {
    match words {
        [] => Err(SYNTAX),
        [text] => Ok((false, text, &[])),
        [mode, text, rest @ ..] => {
            if mode.as_slice() == b"~".as_slice() {
                Ok((true, text, rest))
            } else if mode.as_slice() == b"=".as_slice() {
                Ok((false, text, rest))
            } else {
                Ok((false, mode, &words[1..]))
            }
        }
    }
}

/// The bound of this name.
fn make_bound(word: &[u8], threshold: &[u8]) -> Result<Bound, Refusal> {
    if is_word(word, "minid") {
        return Ok(Bound::Below(id(threshold)?));
    }
    match u64::try_from(require_integer(threshold)?) {
        Ok(most) => Ok(Bound::Length(most)),
        Err(_) => Err(Refusal::Fixed("ERR The MAXLEN argument must be >= 0.")),
    }
}
