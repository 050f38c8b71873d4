//! The fields of an added entry.
ghost use Rattle.std.specs.Prelude.{◌≡◌, ◌++◌, ◌∷◌, [], refl, MatchOption, string_bytes};
ghost use Rattle.stream_commands.specs.Fields.{AreFields, AreAnyFields, one_field, fields_joined};
ghost use Rattle.stream_commands.specs.Fields.{any_fields, each_joined, those_set, then_fields};
ghost use Rattle.stream_commands.specs.NonEmpty.{all};

use crate::at_least_one::AtLeastOne;
use redis_resp::{PairList, RedisWrite, ToRedisArgs, ToSingleRedisArg, WriteError};

/// One field or more: a list of arguments in pairs, the name of a field and its value.
///
/// A pair of single arguments is a field, and `AtLeastOne` of fields is fields. Your own type
/// can implement `ToRedisArgs` and then this trait, with a proof of the fields that its list is.
pub trait ToFieldArgs: ToRedisArgs {
    /// The list of each value consists of fields, at least one.
    ghost fields: { (x : Self) → AreFields (Self.args x) };
}

impl<N: ToSingleRedisArg, V: ToSingleRedisArg> ToFieldArgs for (N, V) {
    ghost fields = { λ x. one_field (N.args x.0) (V.args x.1) (N.single x.0) (V.single x.1) };
}

impl<'a, T: ToFieldArgs> ToFieldArgs for AtLeastOne<'a, T> {
    ghost fields = { fields_joined T.args T.fields };
}

impl<T: ToFieldArgs> ToFieldArgs for &T {
    ghost fields = { λ value. T.fields value.now };
}

/// Fields, possibly none: they can be written before other fields.
pub trait ToAnyFieldArgs: ToRedisArgs {
    /// The list of each value consists of fields, if it is not empty.
    ghost any_fields: { (x : Self) → AreAnyFields (Self.args x) };
}

impl<N: ToSingleRedisArg, V: ToSingleRedisArg> ToAnyFieldArgs for (N, V) {
    ghost any_fields = { λ x.
        any_fields (one_field (N.args x.0) (V.args x.1) (N.single x.0) (V.single x.1)) };
}

/// The fields of an entry that was read, in order.
impl<V: ToSingleRedisArg> ToAnyFieldArgs for PairList<V> {
    ghost any_fields = { λ list. each_joined
        (λ pair. (string_bytes pair.0 ∷ []) ++ V.args pair.1)
        (λ pair. one_field (string_bytes pair.0 ∷ []) (V.args pair.1) refl (V.single pair.1))
        list.0.items };
}

impl<T: ToFieldArgs> ToAnyFieldArgs for Option<T> {
    ghost any_fields = { those_set T.args T.fields };
}

impl<'a, T: ToFieldArgs> ToAnyFieldArgs for AtLeastOne<'a, T> {
    ghost any_fields = { λ list. any_fields (fields_joined T.args T.fields list) };
}

impl<T: ToAnyFieldArgs> ToAnyFieldArgs for &T {
    ghost any_fields = { λ value. T.any_fields value.now };
}

/// Fields, if any, followed by further fields: for example the fields copied from an entry, and
/// fields about it.
///
/// ```text
/// xadd("dead", "*", FieldsThen(&entry, ("deliveries", times)))
/// ```
#[derive(Debug, Drop)]
pub struct FieldsThen<A, B>(pub A, pub B);

impl<A: ToRedisArgs, B: ToRedisArgs> ToRedisArgs for FieldsThen<A, B> {
    ghost args = { λ fields. A.args fields.0 ++ B.args fields.1 };

    fn write_redis_args<W: RedisWrite>(&self, out: &mut W) -> Result<(), WriteError> {
        (&self.0, &self.1).write_redis_args(out)
    }
}

impl<A: ToAnyFieldArgs, B: ToFieldArgs> ToFieldArgs for FieldsThen<A, B> {
    ghost fields = { λ x.
        then_fields (A.args x.0) (B.args x.1) (A.any_fields x.0) (B.fields x.1) };
}

/// The fields of a list of pairs, such as the fields of an entry that was read; `None` if the list is
/// empty, since no entry is added without a field.
pub fn pair_fields<'a, V: ToSingleRedisArg>(
    list: &'a PairList<V>,
) -> Option<AtLeastOne<'a, (String, V)>>
    ensures { MatchOption result (list.now.0.items ≡ [])
        (λ fields. all fields ≡ list.now.0.items) }
{
    AtLeastOne::new(list.0.as_slice())
}
