ghost use Rattle.std.specs.Prelude.{◌≡◌, IfOk, Some, refl};
ghost use Rattle.std.specs.Cmp.Rules.{comparing};
ghost use Rattle.std.proofs.Common.{rules};
ghost use Rattle.rm_base.specs.Values.{value_measure, same_value, value_cmp, value_writes};
ghost use Rattle.rm_base.specs.ValueLaws.{value_order, value_ties, value_writes-alike};

use crate::limits::{INT_MEASURE, NULL_MEASURE, TEXT_MEASURE};
use crate::text::Text;
use std::alloc::{AllocError, Global};
use std::cmp::Ordering;
use std::hash::{Hash, Hasher};

/// A value of a table or of an answer. Null comes before all else, and Ints come before Texts.
#[derive(Debug, Drop)]
pub enum Value {
    Null,
    Int(i64),
    Words(Text),
}

impl Value {
    pub fn copy(&self, alloc: Global) -> Result<Value, AllocError>
        ensures { IfOk result (λ value. value ≡ self.now) }
    {
        match self {
            Value::Null => Ok(Value::Null),
            Value::Int(number) => Ok(Value::Int(*number)),
            Value::Words(text) => Ok(Value::Words(text.copy(alloc)?)),
        }
    }

    /// What the value measures, in bytes.
    pub fn measure(&self) -> u64
        ensures { result ≡ value_measure self.now }
    {
        match self {
            Value::Null => NULL_MEASURE,
            Value::Int(_) => INT_MEASURE,
            Value::Words(text) => TEXT_MEASURE + text.len() as u64,
        }
    }
}

impl PartialEq for Value {
    ghost eq = { same_value };

    ghost laws = { Prim.search (comparing, rules) };

    fn eq(&self, other: &Value) -> bool {
        match (self, other) {
            (Value::Null, Value::Null) => true,
            (Value::Int(a), Value::Int(b)) => a == b,
            (Value::Words(a), Value::Words(b)) => a == b,
            (Value::Null, _) | (Value::Int(_), _) | (Value::Words(_), _) => false,
        }
    }
}

impl Eq for Value {
    ghost laws = { Prim.search (comparing, rules) };
}

impl PartialOrd for Value {
    ghost partial_cmp = { λ a b. Some (value_cmp a b) };

    ghost laws = { value_order };

    fn partial_cmp(&self, other: &Value) -> Option<Ordering> {
        Some(self.cmp(other))
    }
}

impl Ord for Value {
    ghost cmp = { value_cmp };

    ghost total = { Prim.search (comparing, rules) };

    ghost matches_partial_cmp = { λ a b. refl };

    ghost matches_eq = { value_ties };

    fn cmp(&self, other: &Value) -> Ordering {
        match (self, other) {
            (Value::Null, Value::Null) => Ordering::Equal,
            (Value::Null, _) => Ordering::Less,
            (Value::Int(_), Value::Null) => Ordering::Greater,
            (Value::Int(a), Value::Int(b)) => a.cmp(b),
            (Value::Int(_), Value::Words(_)) => Ordering::Less,
            (Value::Words(a), Value::Words(b)) => a.cmp(b),
            (Value::Words(_), _) => Ordering::Greater,
        }
    }
}

impl Hash for Value {
    ghost hash_input = { value_writes };

    ghost respects_eq = { value_writes-alike };

    fn hash<H: Hasher>(&self, state: &mut H) {
        match self {
            Value::Null => state.write_u8(0),
            Value::Int(number) => {
                state.write_u8(1);
                state.write_i64(*number);
            }
            Value::Words(text) => {
                state.write_u8(2);
                text.hash(state);
            }
        }
    }
}
