// Patterns, the truth of conditions, and what is wrong with them, each edge on both sides.
use payload_records::{
    Copied, Datum, Field, Kind, List, Name, NameFault, Prop, Record, RecordType, Shared, Text,
};
use rule_conditions::{Cond, CondFault, Facts, Truth, check, like, truth};
use rule_text::read;
use std::alloc::{AllocError, Global};
use std::process::Abort;

// ---- patterns

const PATTERNS: [(&str, &str, bool); 12] = [
    ("ab", "a_%", true),
    ("a", "a_%", false),
    ("", "%", true),
    ("é", "_", true),
    ("é", "__", false),
    ("a", "", false),
    ("vip7", "VIP%", false),
    ("abcabd", "%abd", true),
    ("abcabd", "a%d%c", false),
    ("mississippi", "%iss%ip_i", true),
    ("mississippi", "%iss_ip_i", false),
    ("a_b", "a__", true),
];

fn check_patterns(rt: &impl Abort, rows: &[(&str, &str, bool)]) {
    for (text, pattern, is_like) in rows {
        assert!(rt; like(text, pattern) == *is_like, "{text} {pattern}");
    }
}

#[test]
fn patterns_match(rt: HostRuntime) {
    check_patterns(&rt, &PATTERNS);
}

// ---- a type of one field

fn add_field(alloc: Global, fields: &mut List<Field>) -> Result<(), NameFault> {
    let name = Name::read(alloc, "qty")?;
    let kind = Kind::Num;
    Ok(fields.push(Field { name, kind })?)
}

fn kind_of(fields: List<Field>) -> Option<RecordType> {
    match RecordType::of(fields) {
        Ok(kind) => kind,
        Err(_) => None,
    }
}

/// The type qty num.
fn kind(alloc: Global) -> Option<RecordType> {
    let mut fields = List::new(alloc);
    match add_field(alloc, &mut fields) {
        Ok(()) => kind_of(fields),
        Err(_) => None,
    }
}

// ---- facts: a number, a correlation, and the properties lvl, which is 2, and zone, which is n

fn datum(qty: Option<i64>) -> Datum {
    match qty {
        Some(qty) => Datum::Num(qty),
        None => Datum::Null,
    }
}

fn cells(alloc: Global, qty: Option<i64>) -> Result<Record, AllocError> {
    let mut cells = List::new(alloc);
    cells.push(datum(qty))?;
    let cells = Shared::new(alloc, cells)?;
    Ok(Record { cells })
}

fn corr(alloc: Global, corr: Option<&str>) -> Result<Option<Text>, AllocError> {
    match corr {
        Some(corr) => Ok(Some(Text::of(alloc, corr)?)),
        None => Ok(None),
    }
}

fn add_prop(
    props: &mut List<Prop>,
    alloc: Global,
    text: &str,
    value: Datum,
) -> Result<(), NameFault> {
    let name = Name::read(alloc, text)?;
    Ok(props.push(Prop { name, value })?)
}

fn add_props(props: &mut List<Prop>, alloc: Global) -> Result<(), NameFault> {
    add_prop(props, alloc, "lvl", Datum::Num(2))?;
    let zone = Text::of(alloc, "n")?;
    add_prop(props, alloc, "zone", Datum::Text(zone))
}

fn facts_of(corr: Option<Text>, cells: Record, props: List<Prop>) -> Facts {
    Facts {
        priority: 1,
        corr,
        cells,
        props,
    }
}

fn facts(alloc: Global, qty: Option<i64>, text: Option<&str>) -> Result<Facts, AllocError> {
    let cells = cells(alloc, qty)?;
    let corr = corr(alloc, text)?;
    Ok(facts_of(corr, cells, List::new(alloc)))
}

// A copy of the facts, with those properties.
fn whole_facts(alloc: Global, qty: Option<i64>, text: Option<&str>) -> Result<Facts, NameFault> {
    let mut facts = facts(alloc, qty, text)?;
    add_props(&mut facts.props, alloc)?;
    Ok(facts.copied()?)
}

// ---- truths: the condition, the number, the correlation, and what it is of them

type Case = (&'static str, Option<i64>, Option<&'static str>, Truth);

const EITHER: &str = "tab.user_data.qty > 10 or tab.corrid like 'a_%'";

const SAME: &str = "not tab.user_data.qty = tab.user_data.qty";

const ZONE: &str = "tab.user_prop.zone = 'n' and tab.user_prop.lvl > 1";

const TRUTHS: [Case; 20] = [
    (EITHER, None, Some("ab"), Truth::True),
    (EITHER, None, Some("a"), Truth::Unknown),
    (EITHER, None, Some(""), Truth::Unknown),
    (EITHER, Some(10), Some("a"), Truth::False),
    (EITHER, Some(10), None, Truth::Unknown),
    (EITHER, Some(11), None, Truth::True),
    (SAME, None, None, Truth::Unknown),
    (SAME, Some(1), None, Truth::False),
    ("9223372036854775807 + 1 > 0", None, None, Truth::Unknown),
    ("9223372036854775807 + 0 > 0", None, None, Truth::True),
    ("tab.corrid is null", None, Some(""), Truth::True),
    ("tab.corrid is not null", None, Some("a"), Truth::True),
    ("tab.corrid not like ''", None, Some("ab"), Truth::Unknown),
    ("tab.corrid not like 'a%'", None, Some("ab"), Truth::False),
    (ZONE, None, None, Truth::True),
    ("tab.user_prop.lvl = 'x'", None, None, Truth::Unknown),
    ("tab.user_prop.lvl like '2'", None, None, Truth::Unknown),
    ("tab.user_prop.none is null", None, None, Truth::True),
    ("tab.user_prop.zone + 1 is null", None, None, Truth::True),
    ("tab.priority = 1", Some(1), Some("a"), Truth::True),
];

// Whether a copy of the condition is that of the facts.
fn is_of(alloc: Global, kind: &RecordType, facts: &Facts, case: &Case) -> bool {
    match condition_of(alloc, case.0) {
        Some(condition) => truth(&condition, facts, kind) == case.3,
        None => false,
    }
}

fn copied(condition: &Cond) -> Option<Cond> {
    match condition.copied() {
        Ok(condition) => Some(condition),
        Err(_) => None,
    }
}

fn condition_of(alloc: Global, text: &str) -> Option<Cond> {
    match read(alloc, text) {
        Ok(condition) => copied(&condition),
        Err(_) => None,
    }
}

fn is_told(alloc: Global, kind: &RecordType, case: &Case) -> bool {
    match whole_facts(alloc, case.1, case.2) {
        Ok(facts) => is_of(alloc, kind, &facts, case),
        Err(_) => false,
    }
}

fn check_truths(rt: &impl Abort, alloc: Global, kind: &RecordType, cases: &[Case]) {
    for case in cases {
        assert!(rt; is_told(alloc, kind, case), "{}", case.0);
    }
}

// ---- faults: the name of a field that is not there, or that kinds do not fit; no text where there is none

const FAULTS: [(&str, &str); 12] = [
    ("tab.user_data.x = 1", "x"),
    ("tab.user_data.qty = tab.user_data.x", "x"),
    ("tab.corrid = 1", "KIND"),
    ("tab.priority like '1'", "KIND"),
    ("tab.corrid * tab.user_data.x is null", "KIND"),
    ("null = tab.corrid", ""),
    (EITHER, ""),
    (ZONE, ""),
    ("tab.user_prop.lvl = 'x'", ""),
    ("tab.user_prop.lvl like '2'", ""),
    ("tab.user_prop.none is null", ""),
    ("tab.user_prop.zone + 1 is null", ""),
];

fn told(found: &Result<(), CondFault>) -> &str {
    match found {
        Ok(()) => "",
        Err(CondFault::Field(name)) => name.as_str(),
        Err(CondFault::Kind) => "KIND",
        Err(CondFault::Memory) => "MEMORY",
    }
}

fn tells(condition: &Cond, kind: &RecordType, wanted: &str) -> bool {
    let found = check(condition, kind);
    told(&found) == wanted
}

fn has_fault(alloc: Global, kind: &RecordType, text: &str, wanted: &str) -> bool {
    match read(alloc, text) {
        Ok(condition) => tells(&condition, kind, wanted),
        Err(_) => false,
    }
}

fn check_faults(rt: &impl Abort, alloc: Global, kind: &RecordType, rows: &[(&str, &str)]) {
    for (text, wanted) in rows {
        assert!(rt; has_fault(alloc, kind, text, wanted), "{text}");
    }
}

fn check_all(rt: &impl Abort, alloc: Global, kind: &RecordType) {
    check_truths(rt, alloc, kind, &TRUTHS);
    check_faults(rt, alloc, kind, &FAULTS);
}

fn check_by(rt: &impl Abort, alloc: Global, kind: Option<RecordType>) {
    match kind {
        Some(kind) => check_all(rt, alloc, &kind),
        None => assert!(rt; false, "no type"),
    }
}

#[test]
fn truths_and_faults_are_told(rt: HostRuntime) {
    check_by(&rt, rt.alloc(), kind(rt.alloc()));
}
