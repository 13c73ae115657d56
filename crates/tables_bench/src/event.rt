//! An event through both tables.
ghost use Rattle.std.specs.Prelude.{◌≡◌, ◌<◌, true, Some, None, IfOk, length, slice_get};
ghost use Rattle.hive_model.specs.Valid.{IsValidJob};
ghost use Rattle.algo_states.specs.States.{opening_of};
ghost use Rattle.decision_nodes.specs.Tree.{cleared};
ghost use Rattle.tables_bench.specs.Keeping.{IsKept};

use algo_states::StateTable;
use decision_nodes::TreeTable;
use hive_model::{Job, MOST_ALGORITHMS, Outcome};
use number_set::NumberSet;
use std::alloc::{AllocError, Global};

/// The tables of one event, and which algorithms are settled and which handles have arrived.
#[derive(Drop)]
pub(crate) struct Event {
    tree: TreeTable,
    states: StateTable,
    outcomes: Vec<Option<Outcome>>,
    arrived: Vec<bool>,
}

impl Event {
    /// The tables of a job.
    pub(crate) fn new(alloc: Global, job: &Job) -> Result<Event, AllocError>
        requires { IsValidJob job.now }
        ensures { IfOk result (IsKept job.now) }
    {
        let tree = trees(alloc, job)?;
        let states = states(alloc, job)?;
        let outcomes = vec![in alloc; None; job.algorithms().len()]?;
        let arrived = vec![in alloc; false; usize::from(job.handles())]?;
        Ok(Event {
            tree,
            states,
            outcomes,
            arrived,
        })
    }

    /// Lets all algorithms that can run end as accepted, and appends them in their order.
    pub(crate) fn run(&mut self, job: &Job, order: &mut Vec<u16>) -> Result<(), AllocError>
        requires { IsKept job.now self.old }
        ensures { IsKept job.now self.new }
    {
        self.begin(job);
        for _algorithm in 0..job.algorithms().len() {
            if let Some(number) = self.states.next_ready(0) {
                self.end(job, number);
                order.push(number)?;
            }
        }
        Ok(())
    }

    // Nothing has run, and the raw handles are there.
    fn begin(&mut self, job: &Job)
        requires { IsKept job.now self.old }
        ensures { IsKept job.now self.new }
    {
        self.outcomes.fill(None);
        self.arrived.fill(false);
        self.states.clear();
        let reached = self.tree.clear();
        self.reach(job, &reached);
        for handle in 0..count_of(job.raws().len()) {
            self.arrive(job, handle);
        }
    }

    // An algorithm ran, and its outputs are there.
    fn end(&mut self, job: &Job, number: u16)
        requires { IsKept job.now self.old }
        ensures { IsKept job.now self.new }
    {
        if usize::from(number) < job.algorithms().len() {
            self.states.schedule(number);
            self.states.finish(number, &Outcome::Accepted);
            let algorithm = &job.algorithms()[usize::from(number)];
            let mut handle = algorithm.first_output;
            for _output in algorithm.outputs() {
                self.arrive(job, handle);
                handle = handle.saturating_add(1);
            }
            self.settle(job, number);
        }
    }

    fn arrive(&mut self, job: &Job, handle: u16)
        requires { IsKept job.now self.old }
        ensures { IsKept job.now self.new }
    {
        let number = usize::from(handle);
        if number < self.arrived.len() && !self.arrived[number] {
            self.arrived[number] = true;
            self.states.arrive(handle);
        }
    }

    fn settle(&mut self, job: &Job, number: u16)
        requires { IsKept job.now self.old }
        ensures { IsKept job.now self.new }
    {
        if is_open(self.outcomes.as_slice(), number) {
            self.outcomes[usize::from(number)] = Some(Outcome::Accepted);
            let reached = self.tree.settle(number, &Outcome::Accepted);
            self.reach(job, &reached);
        }
    }

    fn reach(&mut self, job: &Job, newly: &NumberSet)
        requires { IsKept job.now self.old }
        ensures { IsKept job.now self.new }
    {
        let mut from: u16 = 0;
        for _number in 0..MOST_ALGORITHMS {
            match newly.first_from(from) {
                Some(number) => {
                    if usize::from(number) < job.algorithms().len() {
                        self.states.reach(number);
                    }
                    from = number.saturating_add(1);
                }
                None => break,
            }
        }
    }
}

fn trees(alloc: Global, job: &Job) -> Result<TreeTable, AllocError>
    requires { IsValidJob job.now }
    ensures { IfOk result (λ it. it ≡ cleared job.now.sequences job.now.top (length job.now.algorithms)) }
{
    TreeTable::new(alloc, job)
}

fn states(alloc: Global, job: &Job) -> Result<StateTable, AllocError>
    requires { IsValidJob job.now }
    ensures { IfOk result (λ it. it ≡ opening_of job.now) }
{
    StateTable::new(alloc, job)
}

fn is_open(outcomes: &[Option<Outcome>], number: u16) -> bool
    ensures { result ≡ true → slice_get outcomes.now number ≡ Some None }
{
    match outcomes.get(usize::from(number)) {
        Some(Some(_)) => false,
        Some(None) => true,
        None => false,
    }
}

/// How many there are. No job has more than 65,535 of anything.
pub(crate) fn count_of(len: usize) -> u16 {
    u16::try_from(len).unwrap_or(0)
}
