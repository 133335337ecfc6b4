// Heads that wait for their facts to be carried on, and the order in which they come up.

use crate::steps::{Place, callee};
use rc_base::NoMemory;
use rc_graph::{Graph, Node};
use rc_passing::Loss;
use std::alloc::Global;

/// Whether a point of a function is a head.
fn is_head(graph: &Graph, point: usize) -> bool {
    match graph.heads.get(point) {
        Some(head) => *head,
        None => false,
    }
}

/// The heads of a function that wait. None waits before `next`.
#[derive(Drop)]
struct Row {
    waits: Vec<bool>,
    next: usize,
}

impl Row {
    /// Each head of a function waits.
    fn whole(alloc: Global, graph: &Graph) -> Result<Row, NoMemory> {
        let mut waits = Vec::new(alloc);
        for point in 0..graph.nodes.len() {
            waits.push(is_head(graph, point))?;
        }
        Ok(Row { waits, next: 0 })
    }

    /// Whether no head waits.
    fn is_done(&self) -> bool {
        self.waits.len() <= self.next
    }

    /// Lets a head wait.
    fn mark(&mut self, point: usize) {
        if let Some(waits) = self.waits.get_mut(point) {
            *waits = true;
            if point < self.next {
                self.next = point;
            }
        }
    }

    /// The first head that waits, which no longer does then.
    fn take(&mut self) -> Option<usize> {
        for point in self.next..self.waits.len() {
            if self.waits[point] {
                self.waits[point] = false;
                self.next = point + 1;
                return Some(point);
            }
        }
        self.next = self.waits.len();
        None
    }
}

/// The heads that wait, by function; the heads from which each function is called; which functions came
/// up; and the functions whose heads come up, the last one first, then those that come up later.
#[derive(Drop)]
pub(crate) struct Waiting {
    rows: Vec<Row>,
    callers: Vec<Vec<Place>>,
    begun: Vec<bool>,
    now: Vec<usize>,
    later: Vec<usize>,
}

/// Adds the heads of a function from whose walks others are called.
fn add_calls(function: usize, graph: &Graph, all: &mut Vec<Vec<Place>>) -> Result<(), NoMemory> {
    let mut head = 0u32;
    for at in 0..graph.nodes.len() {
        if is_head(graph, at) {
            head = u32::try_from(at).map_err(|_| NoMemory)?;
        }
        if let Some(other) = callee(&graph.nodes[at]) {
            if let Some(places) = all.get_mut(other) {
                places.push(Place {
                    function,
                    point: head,
                })?;
            }
        }
    }
    Ok(())
}

/// The heads from whose walks each function is called.
fn callers(alloc: Global, graphs: &[Graph]) -> Result<Vec<Vec<Place>>, NoMemory> {
    let mut all = Vec::new(alloc);
    for _function in 0..graphs.len() {
        all.push(Vec::new(alloc))?;
    }
    for function in 0..graphs.len() {
        add_calls(function, &graphs[function], &mut all)?;
    }
    Ok(all)
}

impl Waiting {
    /// Each head waits. Those of one function come up first.
    pub(crate) fn all(alloc: Global, graphs: &[Graph], first: usize) -> Result<Waiting, NoMemory> {
        let callers = callers(alloc, graphs)?;
        let mut rows = Vec::new(alloc);
        let mut begun = Vec::new(alloc);
        let mut now = Vec::new(alloc);
        for function in 0..graphs.len() {
            rows.push(Row::whole(alloc, &graphs[function])?)?;
            begun.push(function == first)?;
            now.push(function)?;
        }
        now.push(first)?;
        Ok(Waiting {
            rows,
            callers,
            begun,
            now,
            later: Vec::new(alloc),
        })
    }

    /// The first waiting head of the function that comes up.
    fn top(&mut self) -> Result<Option<Place>, NoMemory> {
        for _function in 0..self.now.len() {
            let Some(function) = self.now.pop() else {
                return Ok(None);
            };
            let Some(row) = self.rows.get_mut(function) else {
                return Ok(None);
            };
            if let Some(at) = row.take() {
                let point = u32::try_from(at).map_err(|_| NoMemory)?;
                self.now.push(function)?;
                return Ok(Some(Place { function, point }));
            }
        }
        Ok(None)
    }

    /// The head that comes up.
    pub(crate) fn next(&mut self) -> Result<Option<Place>, NoMemory> {
        if let Some(place) = self.top()? {
            return Ok(Some(place));
        }
        std::mem::swap(&mut self.now, &mut self.later);
        self.top()
    }

    /// Whether a node calls a function that has not come up.
    pub(crate) fn is_first(&self, node: &Node) -> bool {
        let Some(function) = callee(node) else {
            return false;
        };
        match self.begun.get(function) {
            Some(begun) => !*begun,
            None => false,
        }
    }

    /// Lets a head wait.
    pub(crate) fn put_off(&mut self, place: Place) {
        if let Some(row) = self.rows.get_mut(place.function) {
            row.mark(place.point as usize);
        }
    }

    /// Lets the function come up next that a node calls, where heads of it wait.
    pub(crate) fn go_into(&mut self, node: &Node) -> Result<(), NoMemory> {
        let Some(function) = callee(node) else {
            return Ok(());
        };
        let Some(row) = self.rows.get_mut(function) else {
            return Ok(());
        };
        if !row.is_done() {
            self.now.push(function)?;
            if let Some(begun) = self.begun.get_mut(function) {
                *begun = true;
            }
        }
        Ok(())
    }

    /// Lets the heads wait from whose walks a function is called.
    fn come_back(&mut self, function: usize) -> Result<(), NoMemory> {
        let Some(places) = self.callers.get(function) else {
            return Ok(());
        };
        for place in places {
            if let Some(row) = self.rows.get_mut(place.function) {
                if row.is_done() {
                    self.later.push(place.function)?;
                }
                row.mark(place.point as usize);
            }
        }
        Ok(())
    }

    /// Lets those heads wait that read a set that lost facts on a walk through a function.
    fn note_one(&mut self, function: usize, loss: Loss) -> Result<(), NoMemory> {
        match loss {
            Loss::Head(point) => {
                self.put_off(Place { function, point });
                Ok(())
            }
            Loss::Entry(other) => {
                let Some(row) = self.rows.get_mut(other) else {
                    return Ok(());
                };
                if row.is_done() {
                    self.later.push(other)?;
                }
                row.mark(0);
                Ok(())
            }
            Loss::Exit => self.come_back(function),
        }
    }

    /// Lets those heads wait that read the sets that lost facts on a walk through a function.
    pub(crate) fn note(&mut self, function: usize, losses: &[Loss]) -> Result<(), NoMemory> {
        for loss in losses {
            self.note_one(function, *loss)?;
        }
        Ok(())
    }
}
