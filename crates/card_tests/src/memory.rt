// What the example's card leaves in memory: its network in front of each place, and all else as it was; and all as it was where a place is too
// short or the card is faulty.
use crate::room::{RULE, TABLE};
use banks::rule::{Rule, RuleRecord};
use banks::table::{Kind, TableRecord};
use card::places::Places;
use card::read::read;
use card::refusal::CardRefusal;
use card::sizes::Sizes;
use network::refusal::Refusal;
use six_blocks::{CELLS, OPEN, RULES, TABLES};

const CARD: &[u8] = b"blocks=6\nopen=7\nopen=7\nopen=7\nopen=7\nopen=7\nopen=7\nsheets=3\n\
kind=allow\nscope=0,2,3\nrows=3\nrow=0,0,0\nrow=0,1,2\nrow=0,2,1\n\
kind=allow\nscope=1,4,5\nrows=3\nrow=0,0,0\nrow=0,1,1\nrow=2,2,2\n\
kind=allow\nscope=0,2,5\nrows=2\nrow=0,0,0\nrow=0,1,2\n\
rules=2\nrule=notequal\nscope=0,1\nrule=alldiff\nscope=2,3,4\nend=net\n";

fn same_table(a: &TableRecord, b: &TableRecord) -> bool {
    matches!(a.kind, Kind::Allow) == matches!(b.kind, Kind::Allow)
        && (a.arity, a.blocks) == (b.arity, b.blocks)
        && (a.first, a.tuples) == (b.first, b.tuples)
}

fn same_rule(a: &RuleRecord, b: &RuleRecord) -> bool {
    matches!(a.rule, Rule::NotEqual) == matches!(b.rule, Rule::NotEqual)
        && (a.arity, a.blocks) == (b.arity, b.blocks)
}

// Whether tables and rules are the example's, and then as they were before.
fn has_records(tables: &[TableRecord; 5], rules: &[RuleRecord; 4], written: bool) -> bool {
    let (table, rule) = if written { (3, 2) } else { (0, 0) };
    tables[..table]
        .iter()
        .zip(&TABLES)
        .all(|(a, b)| same_table(a, b))
        && tables[table..].iter().all(|a| same_table(a, &TABLE))
        && rules[..rule]
            .iter()
            .zip(&RULES)
            .all(|(a, b)| same_rule(a, b))
        && rules[rule..].iter().all(|a| same_rule(a, &RULE))
}

// What a card is answered in places of these lengths, and whether each place then is as it should be.
fn kept(card: &[u8], room: Sizes) -> (Result<Sizes, CardRefusal>, bool) {
    let (mut masks, mut tables, mut cells, mut rules) = ([9; 8], [TABLE; 5], [99; 30], [RULE; 4]);
    let answer = read(
        card,
        &mut Places {
            masks: &mut masks[..room.masks.min(8)],
            tables: &mut tables[..room.tables.min(5)],
            cells: &mut cells[..room.cells.min(30)],
            rules: &mut rules[..room.rules.min(4)],
        },
    );
    let written = answer.is_ok();
    let (mask, cell) = if written { (6, 24) } else { (0, 0) };
    let same = masks[..mask] == OPEN[..mask]
        && masks[mask..].iter().all(|x| *x == 9)
        && cells[..cell] == CELLS[..cell]
        && cells[cell..].iter().all(|x| *x == 99)
        && has_records(&tables, &rules, written);
    (answer, same)
}

const NEEDED: Sizes = Sizes {
    masks: 6,
    tables: 3,
    cells: 24,
    rules: 2,
};

const SHORT: Result<Sizes, CardRefusal> = Err(CardRefusal {
    refusal: Refusal::PlaceTooShort,
    line: 0,
});

#[test]
fn example_in_memory(rt: HostRuntime) {
    let cases = [
        (NEEDED, Ok(NEEDED)),
        (
            Sizes {
                masks: 8,
                tables: 5,
                cells: 30,
                rules: 4,
            },
            Ok(NEEDED),
        ),
        (Sizes { masks: 5, ..NEEDED }, SHORT),
        (
            Sizes {
                tables: 2,
                ..NEEDED
            },
            SHORT,
        ),
        (
            Sizes {
                cells: 23,
                ..NEEDED
            },
            SHORT,
        ),
        (Sizes { rules: 1, ..NEEDED }, SHORT),
        (Sizes::default(), SHORT),
    ];
    for (i, (room, answer)) in cases.into_iter().enumerate() {
        assert!(rt; kept(CARD, room) == (answer, true), "case {i}");
    }
}

// A faulty last line is found before a place that is too short, and nothing is written.
#[test]
fn faulty_at_the_end(rt: HostRuntime) {
    let faulty = Err(CardRefusal {
        refusal: Refusal::Malformed,
        line: 31,
    });
    for room in [NEEDED, Sizes::default()] {
        assert!(rt; kept(&CARD[..CARD.len() - 1], room) == (faulty, true));
    }
}
