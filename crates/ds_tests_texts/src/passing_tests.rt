//! Which scenarios pass, and where the others are stuck.
ghost use Rattle.std.specs.Prelude.{IsTrue};
ghost use Rattle.ds_script.specs.Passing.{AreNumbered};

use ds_base::{Geom, HostNo, Word};
use ds_script::{Pass, plain_pass};
use ds_tree::{Directive, HostCallOf, HostPlan, Items, Point, Scenario};
use std::alloc::Global;
use std::test::Fail;
use uuid::Uuid;

/// A directive of a table.
#[derive(Clone, Copy)]
enum Line {
    Call,
    Wait(HostNo, u32),
    Hold(HostNo, u32),
}

fn directive_of(line: Line) -> Directive {
    match line {
        Line::Call => Directive::Call {
            call: HostCallOf::Register,
            bind: None,
        },
        Line::Wait(host, directive) => Directive::Wait { host, directive },
        Line::Hold(host, directive) => Directive::Hold {
            point: Point::Commit,
            host,
            directive,
        },
    }
}

/// The host with this number, with its directives among the lines.
fn host_of(alloc: Global, host: HostNo, lines: &[(HostNo, Line)]) -> Result<HostPlan, Fail> {
    let mut list = Items::new(alloc);
    for (of, line) in lines {
        if *of == host {
            list.push(directive_of(*line))?;
        }
    }
    let name = Word::new(&[b'a']).ok_or("a word")?;
    Ok(HostPlan { name, list })
}

fn scenario_of(alloc: Global, count: HostNo, lines: &[(HostNo, Line)]) -> Result<Scenario, Fail> {
    let mut hosts = Items::new(alloc);
    for host in 0..count {
        hosts.push(host_of(alloc, host, lines)?)?;
    }
    Ok(Scenario {
        volume: Uuid::nil(),
        geom: Geom {
            slots: 4,
            block: 1,
            clusters: [1; 4],
            items: [16, 8, 8, 64],
        },
        hosts,
        steps: Items::new(alloc),
    })
}

/// Whether a scenario is within the limits of scenarios.
fn is_numbered(plans: &[HostPlan]) -> bool
    ensures { IsTrue result → AreNumbered plans.now }
{
    for plan in plans {
        if plan.list.as_slice().len() > 4096 {
            return false;
        }
    }
    plans.len() <= 16
}

#[test]
fn passes_or_tells_the_first_host_that_is_stuck(rt: HostRuntime) -> Result<(), Fail> {
    let table = [
        // a wait for a directive of the next host, and a chain of them
        (
            2,
            [(0, Line::Wait(1, 1)), (1, Line::Call)].as_slice(),
            Pass::Passed,
        ),
        (
            3,
            &[
                (0, Line::Wait(1, 1)),
                (1, Line::Wait(2, 1)),
                (2, Line::Call),
            ],
            Pass::Passed,
        ),
        // a circle, also behind directives that pass, and of hosts behind one that is at its end
        (
            2,
            &[(0, Line::Wait(1, 1)), (1, Line::Wait(0, 1))],
            Pass::Stuck {
                host: 0,
                directive: 1,
            },
        ),
        (
            2,
            &[
                (0, Line::Call),
                (0, Line::Wait(1, 2)),
                (1, Line::Call),
                (1, Line::Wait(0, 2)),
            ],
            Pass::Stuck {
                host: 0,
                directive: 2,
            },
        ),
        (
            3,
            &[
                (0, Line::Call),
                (1, Line::Wait(2, 1)),
                (2, Line::Wait(1, 1)),
            ],
            Pass::Stuck {
                host: 1,
                directive: 1,
            },
        ),
        // a hold passes, and the call behind it waits
        (
            2,
            &[
                (0, Line::Hold(1, 1)),
                (0, Line::Call),
                (1, Line::Wait(0, 1)),
            ],
            Pass::Passed,
        ),
        (
            2,
            &[
                (0, Line::Hold(1, 1)),
                (0, Line::Call),
                (1, Line::Wait(0, 2)),
            ],
            Pass::Stuck {
                host: 0,
                directive: 2,
            },
        ),
        // a wait for more directives than there are is one for the whole list, also for the own one
        (2, &[(0, Line::Wait(1, 9)), (1, Line::Call)], Pass::Passed),
        (
            1,
            &[(0, Line::Call), (0, Line::Wait(0, 4096))],
            Pass::Stuck {
                host: 0,
                directive: 2,
            },
        ),
        // a wait for an earlier directive of the host itself
        (1, &[(0, Line::Call), (0, Line::Wait(0, 1))], Pass::Passed),
        // a host without directives
        (2, &[(0, Line::Wait(1, 1))], Pass::Passed),
        (0, &[], Pass::Passed),
    ];
    for (count, lines, want) in &table {
        let scenario = scenario_of(rt.alloc(), *count, lines)?;
        assert!(rt; is_numbered(scenario.hosts.as_slice()));
        assert_eq!(rt; plain_pass(rt.alloc(), &scenario)?, *want);
    }
    Ok(())
}
