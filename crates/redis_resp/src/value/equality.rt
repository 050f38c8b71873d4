//! Equality of values: the same tree, whatever the capacity of their buffers.
ghost use Rattle.std.specs.Prelude.{◌≡◌, ◌↔◌, IsTrue, map};
ghost use Rattle.redis_resp.specs.Tree.{trees, pairs};
ghost use Rattle.redis_resp.specs.Value.{tree, tree_of_pair};
ghost use Rattle.redis_resp.specs.Same.{same, same_each, same_pairs};

use crate::value::Value;

impl PartialEq for Value {
    ghost use Rattle.std.specs.Cmp.{partial_equiv_from_equiv};
    ghost use Rattle.redis_resp.specs.SameLaws.{same_value_laws};

    ghost eq = { λ a b. same (tree a) (tree b) };

    ghost laws = { partial_equiv_from_equiv same_value_laws };

    /// Returns whether the two values have the same tree.
    fn eq(&self, other: &Value) -> bool
        ensures by_parts { result ≡ same (tree self.now) (tree other.now) }
        ensures equal_trees { IsTrue result ↔ (tree self.now ≡ tree other.now) }
    {
        are_alike(self, other)
    }
}

impl Eq for Value {
    ghost use Rattle.redis_resp.specs.SameLaws.{same_value_laws};

    ghost laws = { same_value_laws };
}

#[cycle(alike)]
fn are_alike(a: &Value, b: &Value) -> bool
    ensures { result ≡ same (tree a.now) (tree b.now) }
{
    match (a, b) {
        (Value::Nil, Value::Nil) => true,
        (Value::Int(x), Value::Int(y)) => *x == *y,
        (Value::BulkString(x), Value::BulkString(y)) => x.as_slice() == y.as_slice(),
        (Value::Array(x), Value::Array(y)) => are_all_alike(x, y),
        (Value::SimpleString(x), Value::SimpleString(y)) => x.as_bytes() == y.as_bytes(),
        (Value::Okay, Value::Okay) => true,
        (Value::Map(x), Value::Map(y)) => are_pairs_alike(x, y),
        (
            Value::Attribute {
                payload: x,
                attributes: m,
            },
            Value::Attribute {
                payload: y,
                attributes: n,
            },
        ) => are_alike(x, y) && are_pairs_alike(m, n),
        (Value::Set(x), Value::Set(y)) => are_all_alike(x, y),
        (Value::Boolean(x), Value::Boolean(y)) => *x == *y,
        (
            Value::VerbatimString { format: f, text: x },
            Value::VerbatimString { format: g, text: y },
        ) => f.as_bytes() == g.as_bytes() && x.as_bytes() == y.as_bytes(),
        (
            Value::Push {
                kind: f,
                payload: x,
            },
            Value::Push {
                kind: g,
                payload: y,
            },
        ) => f.as_bytes() == g.as_bytes() && are_all_alike(x, y),
        _ => false,
    }
}

#[cycle(alike)]
fn are_all_alike(a: &[Value], b: &[Value]) -> bool
    ensures { result ≡ same_each (trees (map tree a.now)) (trees (map tree b.now)) }
{
    if a.len() != b.len() {
        return false;
    }
    for i in 0..a.len() {
        if !are_alike(&a[i], &b[i]) {
            return false;
        }
    }
    true
}

#[cycle(alike)]
fn are_pairs_alike(a: &[(Value, Value)], b: &[(Value, Value)]) -> bool
    ensures { result ≡ same_pairs (pairs (map tree_of_pair a.now))
        (pairs (map tree_of_pair b.now)) }
{
    if a.len() != b.len() {
        return false;
    }
    for i in 0..a.len() {
        if !are_alike(&a[i].0, &b[i].0) || !are_alike(&a[i].1, &b[i].1) {
            return false;
        }
    }
    true
}
