use crate::limits::VALUES_MOST;
use crate::name::Name;
use crate::refusal::{CapKind, Parameter, TableKind};
use std::fmt;
use std::marker::Model;

/// A value of a refusal.
#[derive(Clone, Copy, Debug, PartialEq, Eq)]
pub enum RefusalValue {
    Number(u64),
    Name(Name),
    Parameter(Parameter),
    Cap(CapKind),
    Table(TableKind),
}

impl fmt::Display for RefusalValue {
    ghost use Rattle.std.specs.Prelude.{Some};
    ghost use Rattle.rm_base.specs.RefusalText.{refusal_value_text};

    ghost output = { λ value. Some (refusal_value_text value) };

    fn fmt<W: fmt::Write>(&self, f: &mut fmt::Formatter<W>) -> fmt::Result {
        match self {
            RefusalValue::Number(number) => write!(f, "{number}"),
            RefusalValue::Name(name) => write!(f, "{name}"),
            RefusalValue::Parameter(named) => write!(f, "{named}"),
            RefusalValue::Cap(which) => write!(f, "{which}"),
            RefusalValue::Table(kind) => write!(f, "{kind}"),
        }
    }
}

/// The values of a refusal, in their order.
#[derive(Debug, Drop)]
pub struct RefusalValues {
    values: [RefusalValue; VALUES_MOST],
    count: usize,
}

impl Model for RefusalValues {
    ghost use Rattle.std.specs.Prelude.{List, ◌≤◌, take};
    ghost use Rattle.rm_base.specs.declared.limits.TheConstants.{VALUES_MOST};
    ghost use Rattle.rm_base.specs.declared.refusal_value.RefusalValue.{RefusalValue};

    ghost Value = { List RefusalValue };

    ghost view = { λ v. take v.count v.values };

    ghost invariant = { λ v. v.count ≤ VALUES_MOST };
}

impl RefusalValues {
    ghost use Rattle.std.specs.Prelude.{◌≡◌, ◌≤◌, [], ◌∷◌, length};
    ghost use Rattle.rm_base.specs.declared.limits.TheConstants.{VALUES_MOST};

    pub(crate) fn none() -> RefusalValues
        ensures { result ≡ [] }
    {
        let blank = RefusalValue::Number(0);
        RefusalValues {
            values: [blank; VALUES_MOST],
            count: 0,
        }
    }

    pub(crate) fn one(first: RefusalValue) -> RefusalValues
        ensures { result ≡ first ∷ [] }
    {
        RefusalValues {
            values: [first; VALUES_MOST],
            count: 1,
        }
    }

    pub(crate) fn two(first: RefusalValue, second: RefusalValue) -> RefusalValues
        ensures { result ≡ first ∷ second ∷ [] }
    {
        RefusalValues {
            values: [first, second, second],
            count: 2,
        }
    }

    pub(crate) fn three(
        first: RefusalValue,
        second: RefusalValue,
        third: RefusalValue,
    ) -> RefusalValues
        ensures { result ≡ first ∷ second ∷ third ∷ [] }
    {
        RefusalValues {
            values: [first, second, third],
            count: VALUES_MOST,
        }
    }

    pub fn as_slice(&self) -> &[RefusalValue]
        ensures values { result.now ≡ self.now }
        ensures room { length self.now ≤ VALUES_MOST }
    {
        &self.values[..self.count]
    }
}
