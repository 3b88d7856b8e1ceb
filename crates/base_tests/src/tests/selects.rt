//! Texts, and the plan that each is over some tables, or how it is refused.

use crate::tests::whole_text;
use query_plan::plan::Plan;
use query_plan::reading::{ReadError, read_select};
use rm_base::catalog::{Catalog, CatalogColumn, CatalogTable, ColumnKind};
use rm_base::listed::Listed;
use rm_base::name::Name;
use rm_base::select::{Item, Op, Operand};
use rm_base::value::Value;
use std::alloc::{AllocError, Global};
use std::process::Abort;
use std::test::Fail;

/// A text, and its plan as it is shown below, or its refusal. Lines that begin with `#` are headings. The tables are
/// t, of the Int n and the Text m, s, of the Ints k and w, and r, of the Int k and the Text n.
static CASES: &str = "\
# select lists
SELECT * FROM t => 1048576 n=0 m=1
select N from T; => 1048576 n=0
SELECT m, n, m AS k FROM t => 1048576 m=1 n=0 k=1
SELECT t.n, t . m AS a FROM t => 1048576 n=0 a=1
SELECT x.w FROM s x => 1048576 w=1
SELECT outer.w FROM s AS outer => 1048576 w=1
SELECT␉n␍FROM␊t => 1048576 n=0
# comparisons
SELECT n FROM t WHERE n = 1 => 1048576 n=0 #0=1
SELECT n FROM t WHERE n <> 1 AND 2 <= n => 1048576 n=0 #0<>1 2<=#0
SELECT k FROM s WHERE k < w AND s.k >= - 0 => 1048576 k=0 #0<#1 #0>=0
SELECT m FROM t WHERE 'it''s' > m => 1048576 m=1 'it's'>#1
SELECT m FROM t WHERE m = '' AND '' = '' => 1048576 m=1 #1='' ''=''
SELECT n FROM t WHERE n = 9223372036854775807 => 1048576 n=0 #0=9223372036854775807
SELECT n FROM t WHERE n = -9223372036854775808 => 1048576 n=0 #0=-9223372036854775808
SELECT n FROM t WHERE n = 007 => 1048576 n=0 #0=7
# orders and limits
SELECT * FROM t ORDER BY n DESC LIMIT 2 => 1048576 n=0 m=1 desc 0 limit 2
SELECT m, n FROM t ORDER BY 2, m ASC => 1048576 m=1 n=0 asc 1 asc 0
SELECT n AS a FROM t ORDER BY a => 1048576 a=0 asc 0
SELECT * FROM t ORDER BY 002 DESC => 1048576 n=0 m=1 desc 1
SELECT n FROM t LIMIT 0; => 1048576 n=0 limit 0
SELECT n FROM t LIMIT 1000000 => 1048576 n=0 limit 1000000
# words that may not stand there
 => refused 1 0
SELECT => refused 1 6
SELECT  => refused 1 7
SELECT FROM t => refused 1 7
SELECT *, n FROM t => refused 1 8
SELECT n, * FROM t => refused 1 10
SELECT n, FROM t => refused 1 10
SELECT n m FROM t => refused 1 9
SELECT n AS FROM t => refused 1 12
SELECT n. FROM t => refused 1 10
SELECT COUNT FROM t => refused 1 13
SELECT COUNT() FROM t => refused 1 13
SELECT COUNT(*, n) FROM t => refused 1 14
SELECT SUM(*) FROM t => refused 1 11
SELECT SUM(1) FROM t => refused 1 11
SELECT MAX(n FROM t => refused 1 13
SELECT MIN(t.) FROM t => refused 1 13
SELECT SUM(n) total FROM t => refused 1 14
SELECT n AS sum FROM t => refused 1 12
SELECT COUNT(*) FROM t ORDER BY count => refused 1 32
SELECT n FROM t, s => refused 1 15
SELECT n FROM t JOIN => refused 1 20
SELECT n FROM t JOIN s => refused 1 22
SELECT n FROM t JOIN s WHERE n = k => refused 1 23
SELECT n FROM t JOIN s ON n => refused 1 27
SELECT n FROM t JOIN s ON n = k JOIN => refused 1 36
SELECT n FROM t JOIN s ON n = k ON n = k => refused 1 32
SELECT n FROM t ON n = 1 => refused 1 16
SELECT n FROM t WHERE n = 1 JOIN s ON n = k => refused 1 28
SELECT n FROM t LEFT JOIN s ON n = k => refused 1 16
SELECT n FROM t WHERE n = 1 WHERE n = 2 => refused 1 28
SELECT n FROM t GROUP n => refused 1 22
SELECT n FROM t GROUP BY => refused 1 24
SELECT n FROM t GROUP BY 1 => refused 1 25
SELECT n FROM t GROUP BY n m => refused 1 27
SELECT n FROM t GROUP BY n, => refused 1 27
SELECT n FROM t ORDER BY n GROUP BY n => refused 1 27
SELECT n FROM t GROUP BY n GROUP BY n => refused 1 27
SELECT n FROM t GROUP BY n WHERE n = 1 => refused 1 27
SELECT COUNT(*), COUNT(*) FROM t ORDER BY 3 => refused 1 42
SELECT * FROM t JOIN s ON n = k ORDER BY 5 => refused 1 41
SELECT * FROM t JOIN u ON 1 = 1 ORDER BY 0 => refused 1 41
SELECT n FROM t JOIN s ON 1 = 1 JOIN r ON 1 = 1 JOIN t x ON 1 = => refused 1 63
SELECT * FROM t JOIN s ON 1 = 1 JOIN r ON 1 = 1 JOIN t x ON 1 = 1 ORDER BY 9 => refused 1 75
SELECT n FROM t u v => refused 1 18
SELECT n FROM t WHERE n => refused 1 23
SELECT n FROM t WHERE n = => refused 1 25
SELECT n FROM t WHERE - n = 1 => refused 1 24
SELECT n FROM t WHERE n = 1 OR n = 2 => refused 1 28
SELECT n FROM t ORDER n => refused 1 22
SELECT n FROM t ORDER BY count => refused 1 25
SELECT n FROM t LIMIT 1 ORDER BY n => refused 1 24
SELECT n FROM t LIMIT -1 => refused 1 22
SELECT n FROM t;; => refused 1 16
SELECT n FROM t WHERE m = 'x => refused 1 26
SELECT n FROM t ? => refused 1 16
SELECT n FROM t WHERE n ! 1 => refused 1 24
# joins
SELECT * FROM t JOIN s ON n = k => 1310720 n=0 m=1 k=2 w=3 #0=#2
SELECT w FROM t JOIN s ON t.n = s.k WHERE m = 'x' => 1310720 w=3 #0=#2 #1='x'
select a.n, b.n as o from t a join t as b on b.n > a.n and a.m = b.m => 1310720 n=0 o=2 #2>#0 #1=#3
SELECT s.k, r.k FROM s JOIN r ON s.k = r.k JOIN t ON t.m = r.n => 1572864 k=0 k=2 #0=#2 #5=#3
SELECT w FROM t JOIN s ON n = k JOIN r ON w = r.k WHERE r.n = m AND w > 1 => 1572864 w=3 #0=#2 #3=#4 #5=#1 #3>1
SELECT k FROM t JOIN s ON n = k JOIN r x ON x.n = 'a' GROUP BY w => refused 28 k
SELECT w FROM t JOIN s ON n = k ORDER BY w DESC LIMIT 3 => 1310720 w=3 #0=#2 desc 0 limit 3
SELECT * FROM t JOIN s ON n = k ORDER BY 4 => 1310720 n=0 m=1 k=2 w=3 #0=#2 asc 3
# groups
SELECT COUNT(*) FROM t => 1048576 count=rows groups
SELECT count ( * ) AS c, SUM(n), min(m), Max(t.m) AS b, COUNT(m) FROM t => 1048576 c=rows sum=sum(0) min=min(1) b=max(1) count=count(1) groups
SELECT n FROM t GROUP BY n => 1048576 n=0 groups 0
SELECT m, COUNT(*) FROM t GROUP BY m, n => 1048576 m=1 count=rows groups 1 0
SELECT COUNT(*) FROM t GROUP BY n, n => 1048576 count=rows groups 0 0
SELECT n AS a, SUM(n) FROM t WHERE n > 0 GROUP BY t.n ORDER BY 2 DESC, a LIMIT 5; => 1048576 a=0 sum=sum(0) #0>0 groups 0 desc 1 asc 0 limit 5
SELECT w, SUM(n) FROM t JOIN s ON n = k GROUP BY w => 1310720 w=3 sum=sum(0) #0=#2 groups 3
SELECT x.k, MAX(y.n) FROM s x JOIN r y ON x.k = y.k GROUP BY x.k => 1310720 k=0 max=max(3) #0=#2 groups 0
# plain columns among groups
SELECT * FROM t GROUP BY n, m => refused 30 7
SELECT n, COUNT(*) FROM t => refused 30 7
SELECT COUNT(*), n FROM t => refused 30 17
SELECT n, m FROM t GROUP BY n => refused 30 10
SELECT n, m AS n FROM t GROUP BY n => refused 30 10
SELECT s.k FROM s JOIN r ON s.k = r.k GROUP BY r.k => refused 30 7
SELECT n FROM t GROUP BY z => refused 30 7
SELECT n, z FROM t GROUP BY m => refused 30 7
SELECT z, n FROM t GROUP BY m => refused 27 z
SELECT m, SUM(m) FROM t => refused 30 7
SELECT SUM(m), m FROM t => refused 29 7
SELECT COUNT(*), SUM(m) FROM t => refused 29 17
SELECT SUM(m) AS n FROM t WHERE z = 1 => refused 29 7
SELECT SUM(z) FROM t => refused 27 z
SELECT COUNT(*) FROM t GROUP BY z => refused 27 z
SELECT COUNT(*) FROM t WHERE n = m GROUP BY z => refused 29 31
SELECT COUNT(*) FROM t GROUP BY z ORDER BY z => refused 27 z
SELECT n, n FROM t GROUP BY n ORDER BY n => refused 28 n
SELECT COUNT(k) FROM s JOIN r ON w = 1 => refused 28 k
SELECT COUNT(*) FROM s JOIN r ON w = 1 GROUP BY k => refused 28 k
# tables that are joined, and what their comparisons may name
SELECT k FROM s JOIN r ON s.k = r.k => refused 28 k
SELECT w FROM s JOIN r ON k = 1 => refused 28 k
SELECT w FROM s JOIN r ON w = 1 WHERE k = 1 => refused 28 k
SELECT w FROM s JOIN t ON k = n JOIN r ON w = 1 => 1572864 w=1 #0=#2 #1=1
SELECT w FROM s JOIN t ON r.k = n JOIN r ON w = 1 => refused 27 r
SELECT w FROM s JOIN r ON m = 'x' JOIN t ON w = 1 => refused 27 m
SELECT w FROM s JOIN s ON 1 = 1 => refused 28 w
SELECT s.w FROM s JOIN s ON w = 1 => refused 28 s
SELECT s.w FROM s JOIN s ON z = 1 => refused 28 s
SELECT z FROM s JOIN s ON w = 1 => refused 27 z
SELECT s.z FROM s JOIN s ON w = 1 => refused 27 z
SELECT s.m FROM s JOIN t s ON w = 1 => refused 28 s
SELECT w FROM s JOIN r s ON w = 1 => refused 28 s
SELECT w FROM s JOIN t ON z = 1 JOIN r s ON w = 1 => refused 27 z
SELECT w FROM s JOIN t ON n = m JOIN r t ON w = 1 => refused 29 28
SELECT w FROM s JOIN t ON n = 1 JOIN r t ON n = m => refused 28 t
SELECT w FROM s JOIN t ON s.w = m => refused 29 30
SELECT COUNT(*) FROM s a JOIN s b ON a.k = b.k JOIN s c ON c.k = b.k => 1572864 count=rows #0=#2 #4=#2 groups
# too many tables
SELECT z FROM t JOIN s ON 1 = 1 JOIN r ON 1 = 1 JOIN t x ON 1 = 1 => refused 31 3
SELECT z FROM t JOIN u ON 1 = 1 JOIN r ON 1 = 1 JOIN t ON 1 = 1 JOIN s ON 1 = 1; => refused 31 3
SELECT * FROM t JOIN s ON 1 = 1 JOIN r ON 1 = 1 JOIN t x ON 1 = 1 ORDER BY 8 => refused 31 3
SELECT z FROM t JOIN u ON z = 1 JOIN v ON 1 = 1 => refused 26 u
SELECT z FROM u JOIN v ON 1 = 1 => refused 26 u
SELECT w FROM s JOIN s ON z = 1 JOIN u ON 1 = 1 => refused 26 u
# numbers
SELECT n FROM t WHERE n = 9223372036854775808 => refused 1 26
SELECT n FROM t WHERE n = - 9223372036854775809 => refused 1 28
SELECT n FROM t LIMIT 1000001 => refused 1 22
SELECT n FROM t ORDER BY 0 => refused 1 25
SELECT n FROM t ORDER BY 2 => refused 1 25
SELECT * FROM t ORDER BY 3 => refused 1 25
SELECT * FROM u ORDER BY 0 => refused 1 25
SELECT * FROM u ORDER BY 3 => refused 26 u
SELECT * FROM u ORDER BY 9223372036854775808 => refused 1 25
# tables and columns
SELECT nope FROM u WHERE m = n => refused 26 u
SELECT n, z FROM t WHERE y = 1 => refused 27 z
SELECT u.n FROM t => refused 27 u
SELECT t.z FROM t => refused 27 z
SELECT t.n FROM t x => refused 27 t
SELECT n FROM t WHERE x.y = 1 => refused 27 x
SELECT n FROM t ORDER BY m => refused 27 m
SELECT n AS a FROM t ORDER BY n => refused 27 n
SELECT n, n FROM t ORDER BY n => refused 28 n
SELECT n, m AS n FROM t ORDER BY z, n => refused 27 z
SELECT n FROM t WHERE n = m => refused 29 24
SELECT n FROM t WHERE 1 = m AND z = 1 => refused 29 24
SELECT n FROM t WHERE z = 1 AND 1 = m => refused 27 z
SELECT n FROM t WHERE 'x' = 1 => refused 29 26
SELECT n FROM t WHERE m < n ORDER BY z => refused 29 24
";

/// How many parts a list may have, and one that is one too long: the part, what stands between two, and what stands before
/// the list and behind it.
static LISTS: &str = "\
32 SELECT |n|, | FROM t
32 SELECT n FROM t WHERE |n = 1| AND |
32 SELECT n FROM t JOIN s ON |n = k| AND |
16 SELECT * FROM t ORDER BY |n|, |
16 SELECT COUNT(*) FROM t GROUP BY |n|, |
";

fn column(name: &str, kind: ColumnKind) -> Result<CatalogColumn, Fail> {
    let name = Name::of(name).ok_or("no name")?;
    Ok(CatalogColumn { name, kind })
}

fn add_table(
    alloc: Global,
    catalog: &mut Catalog,
    name: &str,
    first: CatalogColumn,
    second: CatalogColumn,
) -> Result<(), Fail> {
    let name = Name::of(name).ok_or("no name")?;
    let mut columns = Listed::new(alloc);
    columns.push(first)?;
    columns.push(second)?;
    catalog.push(CatalogTable { name, columns })?;
    Ok(())
}

fn some_tables(alloc: Global) -> Result<Catalog, Fail> {
    let mut catalog = Catalog::new(alloc);
    let n = column("n", ColumnKind::Int)?;
    let m = column("m", ColumnKind::Words)?;
    add_table(alloc, &mut catalog, "t", n, m)?;
    let k = column("k", ColumnKind::Int)?;
    let w = column("w", ColumnKind::Int)?;
    add_table(alloc, &mut catalog, "s", k, w)?;
    let n = column("n", ColumnKind::Words)?;
    add_table(alloc, &mut catalog, "r", k, n)?;
    Ok(catalog)
}

fn op_text(op: Op) -> &'static str {
    match op {
        Op::Equal => "=",
        Op::Unequal => "<>",
        Op::Less => "<",
        Op::AtMost => "<=",
        Op::Greater => ">",
        Op::AtLeast => ">=",
    }
}

fn push_operand(alloc: Global, shown: &mut String, operand: &Operand) -> Result<(), AllocError> {
    let text = match operand {
        Operand::Column(column) => format!(in alloc; "#{column}")?,
        Operand::Fixed(Value::Int(number)) => format!(in alloc; "{number}")?,
        Operand::Fixed(Value::Words(text)) => {
            let text = text.as_str();
            format!(in alloc; "'{text}'")?
        }
        Operand::Fixed(Value::Null) => format!(in alloc; "null")?,
    };
    shown.push_str(text.as_str())
}

/// The columns of the select list by their names.
fn push_columns(alloc: Global, shown: &mut String, plan: &Plan) -> Result<(), AllocError> {
    let select = plan.select();
    for (name, item) in select.names.as_slice().iter().zip(select.items.as_slice()) {
        let name = name.as_str();
        let text = match item {
            Item::Column(column) => format!(in alloc; " {name}={column}")?,
            Item::CountAll => format!(in alloc; " {name}=rows")?,
            Item::Count(column) => format!(in alloc; " {name}=count({column})")?,
            Item::Sum(column) => format!(in alloc; " {name}=sum({column})")?,
            Item::Min(column) => format!(in alloc; " {name}=min({column})")?,
            Item::Max(column) => format!(in alloc; " {name}=max({column})")?,
        };
        shown.push_str(text.as_str())?;
    }
    Ok(())
}

fn push_tests(alloc: Global, shown: &mut String, plan: &Plan) -> Result<(), AllocError> {
    for test in plan.select().tests.as_slice() {
        shown.push(' ')?;
        push_operand(alloc, shown, &test.left)?;
        shown.push_str(op_text(test.op))?;
        push_operand(alloc, shown, &test.right)?;
    }
    Ok(())
}

/// The columns of GROUP BY, where there are groups.
fn push_groups(alloc: Global, shown: &mut String, plan: &Plan) -> Result<(), AllocError> {
    let Some(groups) = &plan.select().groups else {
        return Ok(());
    };
    shown.push_str(" groups")?;
    for column in groups.as_slice() {
        shown.push_str(format!(in alloc; " {column}")?.as_str())?;
    }
    Ok(())
}

fn push_order(alloc: Global, shown: &mut String, plan: &Plan) -> Result<(), AllocError> {
    let order = &plan.select().order;
    for key in order.keys.as_slice() {
        let column = key.column;
        let text = if key.falling {
            format!(in alloc; " desc {column}")?
        } else {
            format!(in alloc; " asc {column}")?
        };
        shown.push_str(text.as_str())?;
    }
    if let Some(rows) = order.limit {
        shown.push_str(format!(in alloc; " limit {rows}")?.as_str())?;
    }
    Ok(())
}

/// The floor of a plan, its columns, its comparisons, its groups, and its order.
fn shown(alloc: Global, plan: &Plan) -> Result<String, AllocError> {
    let floor = plan.floor();
    let mut shown = format!(in alloc; "{floor}")?;
    push_columns(alloc, &mut shown, plan)?;
    push_tests(alloc, &mut shown, plan)?;
    push_groups(alloc, &mut shown, plan)?;
    push_order(alloc, &mut shown, plan)?;
    Ok(shown)
}

fn check_text(
    rt: &impl Abort,
    alloc: Global,
    catalog: &Catalog,
    text: &str,
    expected: &str,
) -> Result<(), Fail> {
    match read_select(alloc, text, catalog) {
        Ok(plan) => {
            let shown = shown(alloc, &plan)?;
            assert_eq!(rt; shown.as_str(), expected, "{text}");
        }
        Err(ReadError::Refused(refusal)) => {
            let told = format!(in alloc; "{refusal}")?;
            assert_eq!(rt; told.as_str(), expected, "{text}");
        }
        Err(ReadError::Memory) => return Err("no memory")?,
    }
    Ok(())
}

#[test]
fn texts_are_plans_or_refused(rt: HostRuntime) -> Result<(), Fail> {
    let alloc = rt.alloc();
    let catalog = some_tables(alloc)?;
    for case in CASES.lines() {
        if !case.starts_with('#') {
            let (text, expected) = case.rsplit_once(" => ").ok_or("no =>")?;
            check_text(
                &rt,
                alloc,
                &catalog,
                whole_text(alloc, text)?.as_str(),
                expected,
            )?;
        }
    }
    Ok(())
}

fn check_list(rt: &impl Abort, alloc: Global, catalog: &Catalog, line: &str) -> Result<(), Fail> {
    let (head, rest) = line.split_once('|').ok_or("no part")?;
    let (part, rest) = rest.split_once('|').ok_or("no separator")?;
    let (separator, behind) = rest.split_once('|').ok_or("no end")?;
    let (most, before) = head.split_once(' ').ok_or("no number")?;
    let most: usize = most.parse().ok().ok_or("no number")?;
    let mut text = String::from_str(alloc, before)?;
    for i in 0..most {
        if i > 0 {
            text.push_str(separator)?;
        }
        text.push_str(part)?;
    }
    let whole = format!(in alloc; "{text}{behind}")?;
    assert!(rt;
        read_select(alloc, whole.as_str(), catalog).is_ok(),
        "{line}"
    );
    text.push_str(separator)?;
    let place = text.len();
    let expected = format!(in alloc; "refused 1 {place}")?;
    let longer = format!(in alloc; "{text}{part}{behind}")?;
    check_text(rt, alloc, catalog, longer.as_str(), expected.as_str())?;
    check_text(rt, alloc, catalog, text.as_str(), expected.as_str())
}

#[test]
fn lists_are_as_long_as_they_may_be(rt: HostRuntime) -> Result<(), Fail> {
    let catalog = some_tables(rt.alloc())?;
    for line in LISTS.lines() {
        check_list(&rt, rt.alloc(), &catalog, line)?;
    }
    Ok(())
}
