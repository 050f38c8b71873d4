//! Types of a user. `OrderId` is one argument and is read from a number. `Order` is the fields of an entry, as
//! arguments and as a record.
ghost use Rattle.std.specs.Prelude.{◌≡◌, ℕ, [], ◌∷◌, codes, decimal, refl};
ghost use Rattle.std.specs.Prelude.{option_map, string_bytes, IfOk, OnErr};
ghost use Rattle.redis.specs.Words.{RefusesNumber, fields_of, unsigned_reading};
ghost use Rattle.examples.specs.Order.{Meant, order_meaning, order_of, order_reading};
ghost use Rattle.examples.specs.Order.{RefusesOrder, NamesCustomer};

use redis::{
    FromRedisValue, ParsingError, RedisWrite, ToRedisArgs, ToSingleRedisArg, Value, WriteError,
    field_of,
};
use std::alloc::{AllocError, Global};
use std::collections::HashMap;

/// The number of an order.
#[derive(Clone, Copy, Debug)]
pub struct OrderId(pub u64);

impl ToRedisArgs for OrderId {
    ghost args = { λ id. decimal id.0 ∷ [] };

    fn write_redis_args<W: RedisWrite>(&self, out: &mut W) -> Result<(), WriteError> {
        self.0.write_redis_args(out)
    }
}

impl ToSingleRedisArg for OrderId {
    ghost single = { λ _. refl };
}

impl FromRedisValue for OrderId {
    ghost Meaning = { ℕ };

    ghost meaning = { λ id. id.0 };

    ghost reading = { unsigned_reading 64 };

    ghost may_refuse = { RefusesNumber };

    fn from_redis_value(alloc: Global, v: Value) -> Result<OrderId, ParsingError> {
        Ok(OrderId(u64::from_redis_value(alloc, v)?))
    }

    fn from_redis_value_ref(alloc: Global, v: &Value) -> Result<OrderId, ParsingError> {
        Ok(OrderId(u64::from_redis_value_ref(alloc, v)?))
    }
}

/// An order, which the fields of an entry have.
#[derive(Debug, Drop)]
pub struct Order {
    /// The field `order`.
    pub id: OrderId,
    /// The field `customer`.
    pub customer: String,
    /// The field `quantity`: the number of pieces.
    pub quantity: u32,
}

impl ToRedisArgs for Order {
    ghost args = { λ order. codes "order" ∷ decimal order.id.0 ∷ codes "customer"
        ∷ string_bytes order.customer ∷ codes "quantity" ∷ decimal order.quantity ∷ [] };

    fn write_redis_args<W: RedisWrite>(&self, out: &mut W) -> Result<(), WriteError> {
        let fields = (("order", self.id), ("customer", &self.customer));
        (fields, ("quantity", self.quantity)).write_redis_args(out)
    }
}

impl Order {
    /// Returns the order of these fields, if they are an order. Fails only if memory runs out. Allocates only
    /// the copy of the customer.
    pub fn of_fields(
        alloc: Global,
        fields: &HashMap<String, Value>,
    ) -> Result<Option<Order>, AllocError>
        ensures order { IfOk result (λ r. option_map order_meaning r
            ≡ order_of (fields_of fields.now)) }
        ensures memory { OnErr result (NamesCustomer (fields_of fields.now)) }
    {
        let Some(id) = field_of(alloc, fields, "order")? else {
            return Ok(None);
        };
        let Some(customer) = field_of(alloc, fields, "customer")? else {
            return Ok(None);
        };
        let Some(quantity) = field_of(alloc, fields, "quantity")? else {
            return Ok(None);
        };
        Ok(Some(Order {
            id,
            customer,
            quantity,
        }))
    }
}

impl FromRedisValue for Order {
    ghost Meaning = { Meant };

    ghost meaning = { order_meaning };

    ghost reading = { order_reading };

    ghost may_refuse = { RefusesOrder };

    fn from_redis_value(alloc: Global, v: Value) -> Result<Order, ParsingError> {
        Order::from_redis_value_ref(alloc, &v)
    }

    fn from_redis_value_ref(alloc: Global, v: &Value) -> Result<Order, ParsingError> {
        let fields = HashMap::from_redis_value_ref(alloc, v)?;
        Order::of_fields(alloc, &fields)?.ok_or(ParsingError::NotPairs)
    }
}
