//! Laws of the bytes of replies, and of what commands do.
ghost use Rattle.server_commands.specs.Model.{XackIsTheEvent, XdelIsTheEvents};
ghost use Rattle.server_commands.specs.ModelAdding.{XaddIsTheEvent};
ghost use Rattle.server_commands.specs.ModelBeginning.{NoEntriesEnd, XgroupCreateBeginsAWorld};
ghost use Rattle.server_commands.specs.ModelClaiming.{XautoclaimIsTheEvent};
ghost use Rattle.server_commands.specs.ModelReading.{HandingOutIsTheEvent, ReadingNewsIsTheEvent, XreadgroupIsTheEvent};
ghost use Rattle.server_commands.specs.ModelRereading.{XreadgroupWithAnIdIsTheEvent};
ghost use Rattle.server_commands.specs.ReadBack.{RepliesAreRead};

/// The bytes that `append_reply` appends are parsed as one RESP reply, the right one, and nothing more. So a
/// client gets one reply for each command.
pub fn replies_are_read()
    ensures { RepliesAreRead }
{}

/// XGROUP CREATE makes a group that is that of a world of `model_server::group`: it has seen the entries up to the id
/// at which it begins, and nothing is pending. The entries have to ascend, up to the last id; those of a new stream do.
pub fn xgroup_create_begins_a_world()
    ensures begins { XgroupCreateBeginsAWorld }
    ensures new { NoEntriesEnd }
{}

/// If the entries and a group of a stream are those of a world of `model_server::group`, they are so after XACK, of
/// the world to which the acknowledgement came. The reply is how many were pending.
pub fn xack_is_the_event()
    ensures { XackIsTheEvent }
{}

/// If the entries and a group of a stream are those of a world of `model_server::group`, they are so after
/// XDEL, of the world in which each of the entries is deleted.
pub fn xdel_is_the_events()
    ensures { XdelIsTheEvents }
{}

/// If the entries and a group of a stream are those of a world of `model_server::group`, they are so after XADD of an
/// id alone, of the world in which the entry is added: with that id, or for `*` with the id that is the reply.
/// Its fields are the words after the id, in order.
pub fn xadd_is_the_event()
    ensures { XaddIsTheEvent }
{}

/// If the entries and a group of a stream are those of a world of `model_server::group`, they are so after
/// `XREADGROUP` with `>` has delivered entries of it, of the world in which the consumer reads as many. The
/// entries are those that the world gives. It is the law of what `deliver_new` ensures, without `NOACK`, if the group
/// has made fewer than 2 ^ 64 - 1 consumers.
pub fn handing_out_is_the_event()
    ensures { HandingOutIsTheEvent }
{}

/// After what `read_as` ensures for `>`, the group is also that of the world in which the consumer reads as
/// many. The reply has the entries that the world gives, as they are sent, or none.
pub fn reading_news_is_the_event()
    ensures { ReadingNewsIsTheEvent }
{}

/// If the entries and a group of a stream are those of a world of `model_server::group`, they are so after XREADGROUP
/// of one key with `>`, of the world in which the consumer reads as many. It is the law of what `read_one` ensures,
/// without `NOACK`. `BLOCK` does not wait. `COUNT` is the number that `parse_options` parses.
pub fn xreadgroup_is_the_event()
    ensures { XreadgroupIsTheEvent }
{}

/// If the entries and a group of a stream are those of a world of `model_server::group`, they are so after XREADGROUP
/// of one key with an id, of the world in which the consumer reads its own pending entries again. The reply has
/// those that the world gives, with nil for the fields of one that was deleted. It is the law of what `read_one`
/// ensures, with `NOACK` or without. It has three more premises: the names of the group's consumers ascend,
/// the pending entries are of the log, and the log ascends.
pub fn xreadgroup_with_an_id_is_the_event()
    ensures { XreadgroupWithAnIdIsTheEvent }
{}

/// If the entries and a group of a stream are those of a world of `model_server::group`, they are so after XAUTOCLAIM,
/// of the world in which the consumer claimed the entries that are picked. The reply has the entries that the
/// model replies, with JUSTID their ids, and the ids that were deleted.
pub fn xautoclaim_is_the_event()
    ensures { XautoclaimIsTheEvent }
{}
