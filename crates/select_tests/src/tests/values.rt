//! Values, rows and lists of rows.

use rm_base::listed::Listed;
use rm_base::row::{Row, row_measure};
use rm_base::row_list::RowList;
use rm_base::select::{Op, Operand, Test};
use rm_base::text::Text;
use rm_base::value::Value;
use std::alloc::{AllocError, Global};
use std::collections::HashMap;
use std::test::Fail;

/// Values in their order: `NULL`, numbers, and texts behind `'`.
static ORDER: &str = "NULL -9223372036854775808 -1 0 9 10 ' '10 '9 'A 'a 'ab 'b 'é";

pub fn value_of(alloc: Global, word: &str) -> Result<Value, AllocError> {
    match word.strip_prefix('\'') {
        Some(text) => Ok(Value::Words(Text::of(String::from_str(alloc, text)?))),
        None => Ok(word.parse().map_or(Value::Null, Value::Int)),
    }
}

/// A row of these words, parted by spaces.
pub fn row_of(alloc: Global, words: &str) -> Result<Row, AllocError> {
    let mut values = Vec::new(alloc);
    for word in words.split(' ') {
        values.push(value_of(alloc, word)?)?;
    }
    Ok(Row::of(values))
}

#[test]
fn null_comes_first_and_texts_last(rt: HostRuntime) -> Result<(), Fail> {
    let ordered = row_of(rt.alloc(), ORDER)?;
    for (i, a) in ordered.as_slice().iter().enumerate() {
        for (j, b) in ordered.as_slice().iter().enumerate() {
            assert_eq!(rt; a.cmp(b), i.cmp(&j));
            assert_eq!(rt; a == b, i == j);
        }
    }
    Ok(())
}

#[test]
fn rows_are_compared_value_by_value(rt: HostRuntime) -> Result<(), Fail> {
    let short = row_of(rt.alloc(), "1 NULL")?;
    let long = row_of(rt.alloc(), "1 NULL 2")?;
    let later = row_of(rt.alloc(), "1 'a")?;
    assert!(rt; short < long && long < later);
    assert!(rt; short == short.copy(rt.alloc())?);
    let joined = Row::joined(rt.alloc(), &short, &later)?;
    assert!(rt; joined == row_of(rt.alloc(), "1 NULL 1 'a")?);
    assert_eq!(rt; joined.into_vec().len(), 4);
    Ok(())
}

#[test]
fn rows_measure_their_values_and_16(rt: HostRuntime) -> Result<(), Fail> {
    assert_eq!(rt; value_of(rt.alloc(), "NULL")?.measure(), 1);
    assert_eq!(rt; value_of(rt.alloc(), "-7")?.measure(), 8);
    assert_eq!(rt; value_of(rt.alloc(), "'n\u{e9}")?.measure(), 19);
    let mut values = Vec::new(rt.alloc());
    values.push(Value::Null)?;
    values.push(Value::Int(7))?;
    assert_eq!(rt; row_measure(&Row::of(values)), 25);
    Ok(())
}

#[test]
fn equal_rows_are_one_key(rt: HostRuntime) -> Result<(), Fail> {
    let mut counts = HashMap::new(rt.alloc());
    for words in ["1 'a", "NULL 'a", "1 'a", "1 NULL"] {
        let count = counts.entry(row_of(rt.alloc(), words)?)?.or_insert(0u32);
        *count = count.saturating_add(1);
    }
    assert_eq!(rt; counts.len(), 3);
    assert_eq!(rt; counts.get(&row_of(rt.alloc(), "1 'a")?).copied(), Some(2));
    Ok(())
}

#[test]
fn lists_of_rows_are_compared_row_by_row(rt: HostRuntime) -> Result<(), Fail> {
    let mut rows = Vec::new(rt.alloc());
    rows.push(row_of(rt.alloc(), "1")?)?;
    let mut more = Vec::new(rt.alloc());
    more.push(row_of(rt.alloc(), "1")?)?;
    more.push(row_of(rt.alloc(), "NULL")?)?;
    let first = RowList::of(rows);
    let second = RowList::of(more);
    assert!(rt; first < second && first != second);
    assert_eq!(rt; second.as_slice().len(), 2);
    assert_eq!(rt; second.into_vec().len(), 2);
    Ok(())
}

#[test]
fn copies_are_what_was_copied(rt: HostRuntime) -> Result<(), Fail> {
    let text = Text::of(String::from_str(rt.alloc(), "né")?);
    assert_eq!(rt; text.len(), 3);
    let test = Test {
        left: Operand::Column(7),
        op: Op::AtMost,
        right: Operand::Fixed(Value::Words(text.copy(rt.alloc())?)),
    };
    let Test { left, op, right } = test.copy(rt.alloc())?;
    assert!(rt; matches!(&left, Operand::Column(7)) && op == Op::AtMost);
    let Operand::Fixed(Value::Words(copied)) = right else {
        return Err("no text")?;
    };
    assert!(rt; copied == text);
    assert_eq!(rt; text.into_string().as_str(), "né");
    let mut numbers = Listed::new(rt.alloc());
    numbers.push(1u32)?;
    numbers.push(2)?;
    let copied = numbers.copy(rt.alloc())?;
    assert!(rt; copied.as_slice() == [1, 2].as_slice());
    assert_eq!(rt; numbers.into_vec().len(), 2);
    Ok(())
}
