//! The replies of the stream commands in their printed forms.
//!
//! | Reply | Printed form |
//! |---|---|
//! | an entry | `1-0(name=value,other=?)@elapsed#count`: the fields by their names' bytes, `?` for a value that is not a text, the two numbers only if known; the empty entry is `()` |
//! | range, claim | the entries, with a space between each two |
//! | read | `key[entries]`, with a space between each two |
//! | automatic claim | `next=ID claimed=[entries] deleted=[ids] invalid=BOOL` |
//! | pending | `empty`, or `COUNT START END [name=pending ..]` |
//! | pending with count | `id consumer milliseconds times`, with `; ` between each two |
//! | stream information | `last=ID keys=N nodes=N groups=N length=N first=entry final=entry`, with idempotency also `duration=N maxsize=N pids=N tracked=N added=N duplicates=N` |
//! | consumers | `name pending=N idle=N`, with `; ` between each two |
//! | groups | `name consumers=N pending=N last=ID read=N lag=N`, `none` for an unknown number, with `; ` between each two |
//! | stream information in full | `length=N keys=N nodes=N last=ID deleted=ID added=N recorded=ID entries=[entries] groups=[groups]`, an entry with its fields as they were added |
//! | a group in it | `name last=ID read=N lag=N count=N pending=[id consumer time times; ..] consumers=[consumers]`, with `; ` between each two |
//! | a consumer in it | `name seen=TIME active=TIME count=N pending=[id time times; ..]`, `none` for an unknown time, with `; ` between each two |
//! | a status code | its number |
//! | a refusal | `refused N`, the number of the cause in the order in which `ParsingError` lists them |
//!
//! Range, claim, read, pending with count, consumers and groups are printed as `-` if they are empty.
mod full;
mod info;
mod pending;
mod refusal;
mod rows;
mod status;
