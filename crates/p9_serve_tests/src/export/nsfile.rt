//! A run of a namespace file in which an allocation fails does not change the table.

use crate::export::both::{Trial, refusals};
use crate::samples::node;
use p9_base::Fault;
use p9_nsfile::{NsError, OpFault, run_file};
use p9_space::{MountTable, Order};
use p9_tree::Tree;
use p9_world::{World, read_world};
use std::alloc::Allocator;
use std::process::Abort;

// Nodes 1 to 6: /a, /a/b and /a/f, and three files. One includes itself, one acts and has an
// operation that fails, and one has a line of bad form after one that would act.
const INCLUDES: &str = "\
server main
dir /a 755 glenda glenda
dir /a/b 755 glenda glenda
file /a/f 644 glenda glenda 6869
file /ns 644 glenda glenda 2e202f6e73
file /acts 644 glenda glenda 6364202f610a0a62696e642062202f612f620a6364202f6e6f6e650a
file /bad 644 glenda glenda 62696e64202f61202f612f620a62696e640a";

const TEXT: &str = "\
bind /a $home/a/b
. /acts
mount -a main /a $home
unmount /a/b";

/// What a file is run over, and the table, which has a row: /acts is bound at /a/f.
#[derive(Drop)]
pub struct Given<T: Tree> {
    world: World<T>,
    vars: Vec<(String<T::Alloc>, String<T::Alloc>), T::Alloc>,
    table: MountTable<T::Alloc>,
}

/// Makes what a file is run over.
pub fn make_given<T: Tree>(rt: &impl Abort, alloc: T::Alloc) -> Given<T> {
    Given {
        world: read_world(alloc, INCLUDES).expect(rt, "a world"),
        vars: vars(rt, alloc),
        table: table(rt, alloc),
    }
}

// One variable, which is empty.
fn vars<A: Allocator + Copy>(rt: &impl Abort, alloc: A) -> Vec<(String<A>, String<A>), A> {
    let mut vars = Vec::new(alloc);
    let name = String::from_str(alloc, "home").expect(rt, "memory");
    vars.push((name, String::new(alloc))).expect(rt, "memory");
    vars
}

// The table with its row.
fn table<A: Allocator + Copy>(rt: &impl Abort, alloc: A) -> MountTable<A> {
    let mut table = MountTable::new(alloc);
    let bound = table.bind(node(3), &[node(5)], Order::Replace, false);
    bound.expect(rt, "memory");
    table
}

// Runs the text.
fn reports_of<T: Tree>(given: &mut Given<T>) -> Result<Vec<(u64, OpFault), T::Alloc>, NsError> {
    let world = &given.world;
    run_file(
        *given.vars.allocator(),
        TEXT,
        &given.vars,
        &world.servers,
        &world.forest,
        &mut given.table,
    )
}

// The reports are that `cd /none` failed.
fn are_reported(rt: &impl Abort, reports: &[(u64, OpFault)]) {
    let expected = [(2, OpFault::Path(Fault::NotFound))];
    assert!(rt; reports == expected.as_slice());
}

/// Runs the text, which reports that `cd /none` failed and makes a row; or an allocation fails, and
/// the table is as before. Some growths go on with less when they are refused.
pub fn run<T: Tree>(rt: &impl Abort, given: &mut Given<T>) {
    match reports_of(given) {
        Ok(reports) => {
            are_reported(rt, reports.as_slice());
            assert!(rt; given.table.len() == 2);
        }
        Err(error) => assert!(rt; error == NsError::NoMemory && given.table.len() == 1),
    }
}

#[test]
fn a_table_is_as_before_at_each_refusal(rt: HostRuntime) {
    let (plain, index) = refusals(&rt, rt.alloc(), Trial::File);
    assert!(rt; plain > 20 && index > 20);
}
