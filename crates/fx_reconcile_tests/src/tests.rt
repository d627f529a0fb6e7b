//! Operations one by one and all at once. Tables are told by their rows.
use fx_base::{Memory, Text};
use fx_found::{Found, read_found};
use fx_reconcile::{apply_op, next_op, op_text, plan};
use fx_tables::Tables;
use std::alloc::Global;
use std::test::Fail;

// The rows of tables, those of a goal, and the operations.
struct Case {
    now: &'static str,
    goal: &'static str,
    operations: &'static str,
}

const CASES: [Case; 4] = [
    Case {
        now: "*filter
COMMIT",
        goal: "*filter
COMMIT",
        operations: "",
    },
    // Each kind of operation but one, in their order: chains from below, though by name they stand the other way round.
    Case {
        now: "create cali40s:cm9sZSA9PSAiYiIAAAAAAAA hash:net
add cali40s:cm9sZSA9PSAiYiIAAAAAAAA 10.0.0.8/32
*filter
:cali-pi-gnp/old - [0:0]
:cali-tw-cali0 - [0:0]
-A cali-pi-gnp/old -m set --match-set cali40s:cm9sZSA9PSAiYiIAAAAAAAA src -j DROP
-A cali-tw-cali0 -j cali-pi-gnp/old
COMMIT",
        goal: "create cali40n:BBBBBBBBBBBBBBBBBBBBBBB hash:ip,port
add cali40n:BBBBBBBBBBBBBBBBBBBBBBB 10.0.0.2,tcp:80
create cali40s:cm9sZSA9PSAiYiIAAAAAAAA hash:net
add cali40s:cm9sZSA9PSAiYiIAAAAAAAA 10.0.0.9/32
*filter
:cali-fw-cali1 - [0:0]
:cali-po-gnp/new - [0:0]
-A cali-po-gnp/new -m set --match-set cali40n:BBBBBBBBBBBBBBBBBBBBBBB dst,dst -j DROP
-A cali-po-gnp/new -j RETURN
-A cali-fw-cali1 -j cali-po-gnp/new
COMMIT",
        operations: "create cali40n:BBBBBBBBBBBBBBBBBBBBBBB hash:ip,port
add cali40n:BBBBBBBBBBBBBBBBBBBBBBB 10.0.0.2,tcp:80
add cali40s:cm9sZSA9PSAiYiIAAAAAAAA 10.0.0.9/32
write cali-po-gnp/new 2
write cali-fw-cali1 1
delete cali-tw-cali0
delete cali-pi-gnp/old
remove cali40s:cm9sZSA9PSAiYiIAAAAAAAA 10.0.0.8/32
",
    },
    // A set that the goal lacks is destroyed as it is.
    Case {
        now: "create cali40s:cm9sZSA9PSAiYiIAAAAAAAA hash:net
add cali40s:cm9sZSA9PSAiYiIAAAAAAAA 10.0.0.8/32
*filter
COMMIT",
        goal: "*filter
COMMIT",
        operations: "destroy cali40s:cm9sZSA9PSAiYiIAAAAAAAA
",
    },
    // A chain is written whole where a rule is another, or stands elsewhere.
    Case {
        now: "*filter
:cali-pri-a - [0:0]
:cali-pri-b - [0:0]
-A cali-pri-a -j DROP
-A cali-pri-a -j RETURN
-A cali-pri-b -j DROP
COMMIT",
        goal: "*filter
:cali-pri-a - [0:0]
:cali-pri-b - [0:0]
-A cali-pri-b -j DROP
-A cali-pri-a -j RETURN
-A cali-pri-a -j DROP
COMMIT",
        operations: "write cali-pri-a 2
",
    },
];

fn rows(alloc: Global, text: &str) -> Result<Vec<Text>, Fail> {
    let mut rows = Vec::new(alloc);
    for line in text.lines() {
        rows.push(Text::new(alloc, line.as_bytes())?)?;
    }
    Ok(rows)
}

fn tables_of(alloc: Global, text: &str) -> Result<Found, Fail> {
    let rows = rows(alloc, text)?;
    if rows.len() > 1000 {
        return Err(Fail::new("the rows of a case are few"));
    }
    match read_found(alloc, &rows) {
        Ok(found) => Ok(found),
        Err(_) => Err(Fail::new("the rows of a case are no tables")),
    }
}

// The lines of all operations at once.
fn planned(alloc: Global, now: &Tables, goal: &Tables) -> Result<Vec<u8>, Memory> {
    let mut lines = Vec::new(alloc);
    for op in plan(alloc, now, goal)?.as_slice() {
        lines.extend_from_slice(op_text(alloc, op, goal)?.bytes())?;
        lines.push(b'\n')?;
    }
    Ok(lines)
}

// The lines of the operations that are next one after the other, each done before the next is asked for.
fn led(alloc: Global, now: &mut Tables, goal: &Tables) -> Result<Vec<u8>, Memory> {
    let mut lines = Vec::new(alloc);
    for _ in 0..100u32 {
        let Some(op) = next_op(now, goal) else {
            break;
        };
        lines.extend_from_slice(op_text(alloc, &op, goal)?.bytes())?;
        lines.push(b'\n')?;
        apply_op(alloc, now, goal, &op)?;
    }
    Ok(lines)
}

// Whether both ways the operations are those of the case, and none is next behind them.
fn is_led(
    alloc: Global,
    now: &mut Tables,
    goal: &Tables,
    operations: &str,
) -> Result<bool, Memory> {
    let all = planned(alloc, now, goal)?;
    let single = led(alloc, now, goal)?;
    Ok(
        all.as_slice() == operations.as_bytes()
            && single.as_slice() == operations.as_bytes()
            && next_op(now, goal).is_none(),
    )
}

// Each owner of tables lends them and ends once.
fn is_led_to(alloc: Global, now: &mut Tables, case: &Case) -> Result<bool, Fail> {
    let goal = tables_of(alloc, case.goal)?;
    let right = is_led(alloc, now, &goal.tables, case.operations);
    drop(goal);
    Ok(right?)
}

fn is_right(alloc: Global, case: &Case) -> Result<bool, Fail> {
    let mut now = tables_of(alloc, case.now)?;
    let right = is_led_to(alloc, &mut now.tables, case);
    drop(now);
    right
}

#[test]
fn operations_go_in_their_order(rt: HostRuntime) -> Result<(), Fail> {
    for case in &CASES {
        assert!(rt; is_right(rt.alloc(), case)?, "{}", case.operations);
    }
    Ok(())
}
