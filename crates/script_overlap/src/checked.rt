//! Which requests of a script overlap, which are ordered, and a script with these decisions.
ghost use Rattle.std.specs.Prelude.{◌≡◌, ◌+◌, MatchBool, ◌≤◌, IfOk, length, ◌<◌, ◌^◌, if◌then◌else◌, is_some, IfErr};
ghost use Rattle.script_overlap.specs.Overlap.{Clash, IsChecked};
ghost use Rattle.script_meaning.specs.Requests.{accepted_at, accepted_in_all};
ghost use Rattle.script_overlap.specs.Decided.{IsDecided};
ghost use Rattle.script_overlap.specs.Ordered.{AreDrains, IsOrdered, JoinsItsSpan};
ghost use Rattle.script_overlap.specs.Partners.{Finds};

use crate::span::Span;
use line_text::{Overlap, ScriptFault};
use script_meaning::{Outcome, QueueState, Request, Script};
use std::alloc::{AllocError, Global};
use std::marker::Model;

fn end(request: &Request) -> u64
    ensures { result ≡ request.now.start + request.now.count }
{
    u64::from(request.start) + u64::from(request.count)
}

/// Returns whether the two requests share a sector and at least one of them writes.
fn clashes(one: &Request, other: &Request) -> bool
    ensures { MatchBool result (Clash one.now other.now) (Clash one.now other.now → ⊥) }
{
    if !one.writes && !other.writes {
        return false;
    }
    let first = u64::from(one.start.max(other.start));
    first < end(one) && first < end(other)
}

/// A checked script: no two of its requests overlap without a drain between them. Contracts see the script.
///
/// [`Checked::of`] makes it. It keeps which requests the queue accepts, how many they are, and which are ordered, so that a run of
/// the script decides none of these again. The other lines are taken anew, for their replies.
#[derive(Drop)]
pub struct Checked<'s> {
    script: &'s Script,
    // for each line, the request that the queue accepts, if there is one
    requests: Vec<Option<Request>>,
    // the positions of the ordered requests, ascending
    ordered: Vec<usize>,
    accepted: usize,
}

impl<'s> Model for Checked<'s> {
    ghost use Rattle.script_meaning.specs.Script.{Meant};
    ghost use Rattle.script_overlap.specs.Decided.{IsDecided};

    ghost Value = { Meant };

    ghost view = { λ c. c.script.now };

    ghost invariant = { λ c. IsDecided c.script.now c.requests.items c.ordered.items c.accepted };
}

impl<'s> Checked<'s> {
    /// Checks a script as [`check`](crate::check) does, with the same errors, and keeps the decisions.
    pub fn of(alloc: Global, script: &'s Script) -> Result<Checked<'s>, ScriptFault>
        ensures told { IsChecked script.now result }
        ensures same { IfOk result (λ checked. checked ≡ script.now) }
    {
        decide(alloc, script)
    }

    fn new(
        script: &'s Script,
        requests: Vec<Option<Request>>,
        ordered: Vec<usize>,
        accepted: usize,
    ) -> Checked<'s>
        requires { IsDecided script.now requests.items ordered.items accepted }
        ensures { result ≡ script.now }
    {
        Checked {
            script,
            requests,
            ordered,
            accepted,
        }
    }

    /// Returns the script.
    pub fn script(&self) -> &'s Script
        ensures { result.now ≡ self.now }
    {
        self.script
    }

    /// Returns the request that the queue accepts at a position, counted from 0, if there is one.
    pub fn request(&self, position: usize) -> Option<Request>
        ensures { result ≡ accepted_at self.now position }
    {
        match self.requests.get(position) {
            Some(request) => *request,
            None => None,
        }
    }

    /// Returns how many of its requests the queue accepts.
    pub fn accepted(&self) -> usize
        ensures count { result ≡ accepted_in_all self.now }
        ensures few { result ≤ length self.now.lines }
    {
        self.accepted
    }

    /// Returns whether the request at a position, counted from 0, is ordered: the queue has to drain before it. Any other request
    /// joins the span that reaches to it. In version 1 none is ordered.
    pub fn is_ordered(&self, position: usize) -> bool
        ensures { MatchBool result (IsOrdered self.now position) (JoinsItsSpan self.now position) }
    {
        self.ordered.binary_search(&position).is_ok()
    }

    /// Returns the numbers of the lines before which the queue has to drain, in the script's order: in version 2 those of the
    /// ordered requests, in version 1 none. Fails only if memory is refused.
    pub fn drains(&self, alloc: Global) -> Result<Vec<u32>, AllocError>
        ensures { IfOk result (λ lines. AreDrains self.now lines.items) }
    {
        let mut lines = Vec::with_capacity(alloc, self.ordered.len())?;
        for position in &self.ordered {
            lines.push(self.script.lines()[*position].number)?;
        }
        Ok(lines)
    }
}

// Returns the number of the first line before a position whose request is in the span that reaches there and clashes with the
// request. It goes through the lines again, once, for a script that is refused.
fn earliest(script: &Script, position: usize, request: &Request) -> Option<u32>
    requires { position ≤ length script.now.lines }
    ensures { Finds script.now position request.now result }
{
    let mut queue = QueueState::new(script);
    let mut found = None;
    for line in &script.lines()[..position] {
        match queue.take(&line.what) {
            Outcome::Accepted(other) => {
                if found.is_none() && clashes(&other, request) {
                    found = Some(line.number);
                }
            }
            Outcome::Drained(_) => found = None,
            Outcome::Replied(_) => {}
        }
    }
    found
}

// Adds the next line's request, if it was accepted, to how many were accepted.
fn counted(accepted: usize, request: Option<Request>) -> usize
    requires { accepted + 1 < 2 ^ 64 }
    ensures { result ≡ accepted + (if is_some request then 1 else 0) }
{
    match request {
        Some(_) => accepted + 1,
        None => accepted,
    }
}

// Decides for each request of a script whether it overlaps another, and whether it is ordered.
fn decide<'s>(alloc: Global, script: &'s Script) -> Result<Checked<'s>, ScriptFault>
    ensures told { IsChecked script.now result }
    ensures same { IfOk result (λ checked. checked ≡ script.now) }
{
    let mut queue = QueueState::new(script);
    let mut span = Span::new(alloc, script.disk())?;
    let mut requests = Vec::with_capacity(alloc, script.lines().len())?;
    let mut ordered = Vec::new(alloc);
    let mut accepted = 0;
    for (position, line) in script.lines().iter().enumerate() {
        let came = queue.take(&line.what);
        let request = came.accepted();
        accepted = counted(accepted, request);
        requests.push(request)?;
        if let Some(request) = span.take(&came) {
            if !script.orders_overlaps() {
                let earlier = earliest(script, position, &request).unwrap();
                return Err(ScriptFault::Overlap(Overlap {
                    line: line.number,
                    earlier,
                }));
            }
            ordered.push(position)?;
        }
    }
    Ok(Checked::new(script, requests, ordered, accepted))
}

/// Checks that no two requests of a script overlap. In version 2 none do, since the queue orders them: it drains before a request
/// that overlaps a request of the span that it would join.
///
/// Returns `Overlap` exactly if two requests of version 1 overlap. Of all overlapping pairs it reports the one with the least later
/// line, and of these the one with the least earlier line. Returns `Memory` only if memory is refused. [`Checked::of`] keeps the
/// decisions, for a run of the script.
pub fn check(alloc: Global, script: &Script) -> Result<(), ScriptFault>
    ensures { IsChecked script.now result }
{
    match decide(alloc, script) {
        Ok(_) => Ok(()),
        Err(fault) => Err(fault),
    }
}

/// Returns the numbers of the lines before which the queue has to drain, in the script's order: the lines of the ordered requests
/// in version 2, and none in version 1, even if its requests overlap. `Memory` is the only error.
pub fn drains(alloc: Global, script: &Script) -> Result<Vec<u32>, ScriptFault>
    ensures lines { IfOk result (λ lines. AreDrains script.now lines.items) }
    ensures fault { IfErr result (λ fault. fault ≡ ScriptFault.Memory) }
{
    if !script.orders_overlaps() {
        return Ok(Vec::new(alloc));
    }
    match decide(alloc, script) {
        Ok(checked) => Ok(checked.drains(alloc)?),
        Err(ScriptFault::Memory) => Err(ScriptFault::Memory),
        // No requests of version 2 overlap, and a script has no fault of its text.
        Err(_) => unreachable!(),
    }
}
