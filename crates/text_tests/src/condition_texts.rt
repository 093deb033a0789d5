// Texts of conditions with their prints, and texts of none with how many first bytes begin one.
use rule_conditions::Cond;
use rule_text::{ReadFault, print, read};
use std::alloc::{AllocError, Global};
use std::process::Abort;

const PRINTED: [(&str, &str); 21] = [
    (
        "tab.priority<0 or not tab.corrid is null",
        "tab.priority < 0 OR NOT tab.corrid IS NULL",
    ),
    (" \t\n\r1\t=\n1\r ", "1 = 1"),
    ("1=1 or 2=2 and(3=3)", "1 = 1 OR 2 = 2 AND 3 = 3"),
    ("(1=1 or 2=2) or 3=3", "(1 = 1 OR 2 = 2) OR 3 = 3"),
    ("(1=1 and 2=2) or ((3=3))", "1 = 1 AND 2 = 2 OR 3 = 3"),
    ("1=1 and (2=2 or 3=3)", "1 = 1 AND (2 = 2 OR 3 = 3)"),
    ("1=1 and (2=2 and 3=3)", "1 = 1 AND (2 = 2 AND 3 = 3)"),
    ("not(1=1 or 2=2)", "NOT (1 = 1 OR 2 = 2)"),
    ("not(1=1 and 2=2)", "NOT (1 = 1 AND 2 = 2)"),
    ("NOT nOt 1=1 and 2=2", "NOT NOT 1 = 1 AND 2 = 2"),
    ("NULL is Null", "NULL IS NULL"),
    ("null IS NOT NULL", "NULL IS NOT NULL"),
    ("tab.USER_DATA.Qty_2 <>-1", "tab.user_data.qty_2 <> -1"),
    ("TAB.CORRID != 'a'", "tab.corrid <> 'a'"),
    ("tab.User_Prop.ZONE=1", "tab.user_prop.zone = 1"),
    ("1--2<=-0", "1 - -2 <= 0"),
    ("1 + 2 - 3 * 4>=007", "1 + 2 - 3 * 4 >= 7"),
    (
        "9223372036854775807>-9223372036854775808",
        "9223372036854775807 > -9223372036854775808",
    ),
    ("'it''s é' like '%''_'", "'it''s é' LIKE '%''_'"),
    ("'' not like ''''", "'' NOT LIKE ''''"),
    ("tab.user_data.isnull = 1", "tab.user_data.isnull = 1"),
];

fn has_print(alloc: Global, condition: &Cond, printed: &str) -> bool {
    match print(alloc, condition) {
        Ok(text) => text.as_str() == printed,
        Err(_) => false,
    }
}

fn is_printed(alloc: Global, text: &str, printed: &str) -> bool {
    match read(alloc, text) {
        Ok(condition) => has_print(alloc, &condition, printed),
        Err(_) => false,
    }
}

fn check_prints(rt: &impl Abort, alloc: Global, rows: &[(&str, &str)]) {
    for (text, printed) in rows {
        assert!(rt; is_printed(alloc, text, printed), "{text}");
    }
}

#[test]
fn texts_are_read_and_printed(rt: HostRuntime) {
    check_prints(&rt, rt.alloc(), &PRINTED);
}

const PLACES: [(&str, u64); 35] = [
    ("", 0),
    ("   ", 3),
    ("tab.priorite = 1", 11),
    ("tab.priority = ", 15),
    ("1 = 1 )", 6),
    ("9223372036854775808 = 1", 18),
    ("-9223372036854775809 = 1", 19),
    ("tab.", 4),
    ("tab.user_data.9 = 1", 14),
    ("tab.user_prop. = 1", 14),
    ("tab.user_props = 1", 13),
    ("tab.user_data.a.b = 1", 15),
    ("null is nul", 11),
    ("nulls is null", 4),
    ("null is not like", 12),
    ("notnull", 3),
    ("1 + )", 4),
    ("1 = 1 and or 1 = 1", 10),
    ("1 = 1and 2 = 2", 5),
    ("(1 = 1", 6),
    ("()", 1),
    ("1 ! 1", 3),
    ("1 <> > 1", 5),
    ("'a' = 'b", 8),
    ("'a'b = 1", 3),
    ("null like null", 10),
    ("null not null", 9),
    ("- 1 = 1", 1),
    ("1.5 = 1", 1),
    ("+1 = 1", 0),
    ("1 = 1 = 1", 6),
    ("\u{b}1 = 1", 0),
    ("1 = é", 4),
    ("not )", 4),
    ("'a' 'b' = 1", 4),
];

fn place_of(alloc: Global, text: &str) -> Option<u64> {
    match read(alloc, text) {
        Ok(_) => None,
        Err(ReadFault::Bad { at }) => Some(at),
        Err(ReadFault::Memory) => Some(u64::MAX),
    }
}

fn check_places(rt: &impl Abort, alloc: Global, rows: &[(&str, u64)]) {
    for (text, at) in rows {
        assert!(rt; place_of(alloc, text) == Some(*at), "{text}");
    }
}

#[test]
fn places_are_told(rt: HostRuntime) {
    check_places(&rt, rt.alloc(), &PLACES);
}

// What stands before, what is repeated, how often, what stands behind, and the place.
type Long = (&'static str, &'static str, usize, &'static str, Option<u64>);

const CLOSED: &str = "1 = 1))))))))))))))))))))))))))))))))))))))))))))))))))))))))))))))))";

const LIMITS: [Long; 14] = [
    ("", "not ", 64, "null is null", None),
    ("", "not ", 65, "1 = 1", Some(257)),
    ("", "not ", 64, "(1 = 1)", Some(256)),
    ("", "(", 64, "1 = 1", Some(69)),
    ("", "(", 64, CLOSED, None),
    ("", "(", 65, "1 = 1", Some(64)),
    ("1 = '", "a", 4_000, "'", None),
    ("1 = '", "a", 4_001, "'", Some(4_005)),
    ("1 = '", "''", 4_000, "'", None),
    ("1 = '", "''", 4_001, "'", Some(8_006)),
    ("1 = 'a", "é", 2_000, "'", Some(4_004)),
    ("1 = 'a", "€", 1_333, "'", None),
    ("1 = 'ab", "€", 1_333, "'", Some(4_003)),
    ("1 = ", "0", 5_000, "7", None),
];

fn add_pieces(text: &mut String, row: &Long) -> Result<(), AllocError> {
    text.push_str(row.0)?;
    for _ in 0..row.2 {
        text.push_str(row.1)?;
    }
    text.push_str(row.3)
}

fn keeps(alloc: Global, row: &Long) -> Result<bool, AllocError> {
    let mut text = String::new(alloc);
    add_pieces(&mut text, row)?;
    Ok(place_of(alloc, text.as_str()) == row.4)
}

fn check_limits(rt: &impl Abort, alloc: Global, rows: &[Long]) -> Result<(), AllocError> {
    for row in rows {
        assert!(rt; keeps(alloc, row)?, "{} times {}", row.2, row.1);
    }
    Ok(())
}

#[test]
fn limits_are_kept(rt: HostRuntime) -> Result<(), AllocError> {
    check_limits(&rt, rt.alloc(), &LIMITS)
}
