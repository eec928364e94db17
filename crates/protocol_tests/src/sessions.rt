// What a table of sessions tells. What it answers to events is the stored run of `sessions_check`.
use std::alloc::Global;
use std::test::Fail;
use verifier_sessions::{Event, NoMemory, OpenRule, Stand, Table};

fn filled(alloc: Global) -> Result<Table, NoMemory> {
    let mut table = Table::new(alloc);
    table.apply(
        10,
        Event::Open {
            id: "a",
            nonce: "x",
        },
    )?;
    table.apply(
        20,
        Event::Open {
            id: "b",
            nonce: "y",
        },
    )?;
    table.apply(
        30,
        Event::Post {
            id: "a",
            yes: false,
        },
    )?;
    table.apply(40, Event::Post { id: "b", yes: true })?;
    Ok(table)
}

fn full(alloc: Global) -> Result<Table, NoMemory> {
    let mut table = Table::new(alloc);
    for i in 0..1_024u32 {
        let id = format!(in alloc; "i{i}")?;
        let nonce = format!(in alloc; "n{i}")?;
        table.apply(
            7,
            Event::Open {
                id: id.as_str(),
                nonce: nonce.as_str(),
            },
        )?;
    }
    Ok(table)
}

fn stands(table: &Table) -> bool {
    [
        (0, "a", Stand::Pending { refusals: 1 }),
        (309, "a", Stand::Pending { refusals: 1 }),
        (310, "a", Stand::Expired { refusals: 1 }),
        (3_609, "a", Stand::Expired { refusals: 1 }),
        (3_610, "a", Stand::Unknown),
        (3_619, "b", Stand::Yes { refusals: 0 }),
        (3_620, "b", Stand::Unknown),
        (0, "c", Stand::Unknown),
    ]
    .iter()
    .all(|&(moment, id, stand)| table.stand(moment, id) == stand)
}

fn nonces(table: &Table) -> bool {
    [
        (0, "a", "x"),
        (3_609, "a", "x"),
        (3_610, "a", "none"),
        (3_610, "b", "y"),
        (0, "c", "none"),
    ]
    .iter()
    .all(|&(moment, id, nonce)| table.nonce(moment, id).unwrap_or("none") == nonce)
}

fn rules(table: &Table) -> bool {
    [
        (0, "a", "z", Some(OpenRule::DrawInUse)),
        (0, "c", "y", Some(OpenRule::DrawInUse)),
        (0, "c", "z", None),
        (3_609, "a", "z", Some(OpenRule::DrawInUse)),
        (3_610, "a", "x", None),
        (3_610, "a", "y", Some(OpenRule::DrawInUse)),
    ]
    .iter()
    .all(|&(moment, id, nonce, rule)| table.refuses(moment, id, nonce) == rule)
}

#[test]
fn tells_sessions(rt: HostRuntime) -> Result<(), Fail> {
    let table = filled(rt.alloc())?;
    assert!(rt; table.latest() == 40);
    assert!(rt; stands(&table));
    assert!(rt; nonces(&table));
    assert!(rt; rules(&table));
    Ok(())
}

#[test]
fn tells_that_it_is_full(rt: HostRuntime) -> Result<(), Fail> {
    let table = full(rt.alloc())?;
    assert!(rt; table.refuses(3_606, "i5", "n5") == Some(OpenRule::Full));
    assert!(rt; table.refuses(3_607, "i5", "n5").is_none());
    Ok(())
}
