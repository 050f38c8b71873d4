//! The id at the start of a line.
ghost use Rattle.std.specs.Prelude.{◌≡◌, option_map};
ghost use Rattle.worker_journal.specs.KnownIds.Told.{id_of_json, line_number};

use crate::known_ids::number::{count_before, number_of};

const JSON_HEAD: &[u8] = b"{\"id\":\"";

const JSON_NEXT: &[u8] = b"\",\"fields\":[";

/// Returns the number of the id at the start of a line without its line feed. The line starts with
/// `{"id":"1-0","fields":[`, or it has texts that tabs separate, of which the first is the id. Returns `None`
/// for any other line, or if the id is invalid.
pub fn line_number(line: &[u8], json: bool) -> Option<u128>
    ensures { result ≡ line_number json line.now }
{
    if json {
        number_of(find_id(line)?)
    } else {
        number_of(&line[..count_before(line, b'\t')])
    }
}

/// Returns the id in a line of JSON.
fn find_id(line: &[u8]) -> Option<&[u8]>
    ensures { option_map (λ id. id.now) result ≡ id_of_json line.now }
{
    let rest = line.strip_prefix(JSON_HEAD)?;
    let (id, behind) = rest.split_at(count_before(rest, b'"'));
    let _fields = behind.strip_prefix(JSON_NEXT)?;
    Some(id)
}
