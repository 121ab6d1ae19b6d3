//! Which lists and volumes can be run now, and where the others break the form.
ghost use Rattle.std.specs.Prelude.{IsTrue};
ghost use Rattle.ds_base.specs.Geometry.{IsGeom};

use crate::first_forms::{list_break, not_built};
use ds_base::{Geom, HostNo, Word};
use ds_tree::{CallOf, Directive, HostCallOf, Items, Scenario, Spoken, Var};
use std::alloc::Global;
use std::process::Abort;
use std::test::Fail;
use uuid::Uuid;

/// A directive of a table.
#[derive(Clone, Copy)]
enum Line {
    Register,
    RegisterAs,
    Create(&'static [u8]),
    CreateIn(&'static [u8]),
    CreateAs(&'static [u8]),
    Lookup(&'static [u8]),
    Mkdir(&'static [u8]),
    Die,
}

fn word(bytes: &[u8]) -> Result<Word, Fail> {
    Ok(Word::new(bytes).ok_or("a word")?)
}

fn variable(bytes: &[u8]) -> Result<Var, Fail> {
    Ok(Var::new(bytes).ok_or("a variable")?)
}

fn tree_call(call: CallOf<Spoken>, bind: Option<Var>) -> Directive {
    Directive::Call {
        call: HostCallOf::Tree(call),
        bind,
    }
}

fn register(bind: Option<Var>) -> Directive {
    Directive::Call {
        call: HostCallOf::Register,
        bind,
    }
}

fn create(dir: Spoken, name: &[u8], bind: Option<Var>) -> Result<Directive, Fail> {
    let name = word(name)?;
    Ok(tree_call(CallOf::Create { dir, name }, bind))
}

fn directive_of(line: Line) -> Result<Directive, Fail> {
    match line {
        Line::Register => Ok(register(None)),
        Line::RegisterAs => Ok(register(Some(variable(b"x")?))),
        Line::Create(name) => create(Spoken::Root, name, None),
        Line::CreateIn(name) => create(Spoken::Var(variable(b"x")?), name, None),
        Line::CreateAs(name) => create(Spoken::Root, name, Some(variable(b"x")?)),
        Line::Lookup(name) => {
            let name = word(name)?;
            let dir = Spoken::Root;
            Ok(tree_call(CallOf::Lookup { dir, name }, None))
        }
        Line::Mkdir(name) => {
            let name = word(name)?;
            let dir = Spoken::Root;
            Ok(tree_call(CallOf::Mkdir { dir, name }, None))
        }
        Line::Die => Ok(Directive::Die),
    }
}

fn list_of(alloc: Global, lines: &[Line]) -> Result<Items<Directive>, Fail> {
    let mut list = Items::new(alloc);
    for line in lines {
        list.push(directive_of(*line)?)?;
    }
    Ok(list)
}

#[test]
fn a_list_breaks_the_form_at_its_first_other_directive(rt: HostRuntime) -> Result<(), Fail> {
    let table = [
        ([].as_slice(), Some(1)),
        (&[Line::Register], None),
        (&[Line::Lookup(b"x")], Some(1)),
        (&[Line::RegisterAs], Some(1)),
        (&[Line::Register, Line::Register], Some(2)),
        (&[Line::Register, Line::Mkdir(b"x"), Line::Die], Some(2)),
        (&[Line::Register, Line::Lookup(b"x"), Line::Die], Some(3)),
        (&[Line::Register, Line::CreateAs(b"x")], Some(2)),
        (&[Line::Register, Line::CreateIn(b"x")], Some(2)),
        (&[Line::Register, Line::Create(b"..")], Some(2)),
        (
            &[
                Line::Register,
                Line::Create(b"x"),
                Line::Create(b"x"),
                Line::Lookup(b"y"),
                Line::Create(b"x"),
                Line::Create(b"x"),
                Line::Lookup(b"x"),
            ],
            None,
        ),
        (
            &[
                Line::Register,
                Line::Create(b"x"),
                Line::Create(b"x"),
                Line::Create(b"x"),
                Line::Lookup(b"x"),
                Line::Create(b"x"),
                Line::Create(b"x"),
            ],
            Some(7),
        ),
    ];
    for (lines, want) in &table {
        let list = list_of(rt.alloc(), lines)?;
        assert!(rt; list.as_slice().len() <= 4096);
        assert_eq!(rt; list_break(list.as_slice()), *want);
    }
    Ok(())
}

fn is_geom(geom: &Geom) -> bool
    ensures { IsTrue result → IsGeom geom.now }
{
    geom.check().is_ok()
}

/// Where a scenario without hosts, whose volume has file blocks of so many sectors, can't be run.
fn without_hosts(rt: &impl Abort, alloc: Global, block: u16) -> Option<(HostNo, u32)> {
    let geom = Geom {
        slots: 4,
        block,
        clusters: [1; 4],
        items: [16, 8, 8, 64],
    };
    assert!(rt; is_geom(&geom));
    let scenario = Scenario {
        volume: Uuid::nil(),
        geom,
        hosts: Items::new(alloc),
        steps: Items::new(alloc),
    };
    not_built(&scenario)
}

#[test]
fn a_scenario_without_hosts_can_be_run_on_volumes_of_one_geometry(rt: HostRuntime) {
    assert_eq!(rt; without_hosts(&rt, rt.alloc(), 1), None);
    assert_eq!(rt; without_hosts(&rt, rt.alloc(), 2), Some((0, 0)));
}
