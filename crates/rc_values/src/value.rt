// Values.

ghost use Rattle.std.specs.Prelude.{◌≡◌, true};
ghost use Rattle.rc_core.specs.Evaluation.{as_wanted, is_true, number_in, same_value, static};
ghost use Rattle.rc_core.specs.Heap.{names};
ghost use Rattle.rc_values.specs.Values.{value_of};

/// An element of an object, or the end of the object.
#[derive(Clone, Copy)]
pub struct Address {
    pub region: u32,
    pub object: u64,
    pub index: u64,
}

/// What a cell or a local holds.
#[derive(Clone, Copy)]
pub enum Value {
    Number(i64),
    Null,
    /// A region.
    Handle(u32),
    Pointer(Address),
}

/// The number that a value is.
pub fn number_in(value: Value) -> i64
    ensures { result ≡ number_in (value_of value) }
{
    match value {
        Value::Number(n) => n,
        _ => 0,
    }
}

/// Whether it is neither zero nor null.
pub fn is_true(value: Value) -> bool
    ensures { result ≡ is_true (value_of value) }
{
    match value {
        Value::Number(n) => n != 0,
        Value::Null => false,
        Value::Handle(_) => true,
        Value::Pointer(_) => true,
    }
}

/// Whether two values are equal.
pub fn is_same(left: Value, right: Value) -> bool
    ensures { result ≡ same_value (value_of left) (value_of right) }
{
    match (left, right) {
        (Value::Number(n), Value::Number(m)) => n == m,
        (Value::Null, Value::Null) => true,
        (Value::Handle(r), Value::Handle(q)) => r == q,
        (Value::Pointer(a), Value::Pointer(b)) => {
            a.region == b.region && a.object == b.object && a.index == b.index
        }
        _ => false,
    }
}

/// 1 where `is` is `wanted`, else 0.
pub fn as_wanted(wanted: bool, is: bool) -> Value
    ensures { value_of result ≡ as_wanted wanted is }
{
    if wanted == is {
        Value::Number(1)
    } else {
        Value::Number(0)
    }
}

/// The pointer to the first element of a global or of a string literal.
pub fn static_pointer(object: u64) -> Value
    ensures { value_of result ≡ static object }
{
    Value::Pointer(Address {
        region: 0,
        object,
        index: 0,
    })
}

/// Whether the value names the region.
pub fn names(region: u32, value: Value) -> bool
    ensures { result ≡ names region (value_of value) }
{
    match value {
        Value::Handle(r) => r == region,
        Value::Pointer(a) => a.region == region,
        _ => false,
    }
}
