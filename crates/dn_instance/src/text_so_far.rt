// The complete lines of a text: how many they are, and what their items make.
ghost use Rattle.std.specs.Prelude.{◌≡◌, ◌<◌, ◌≤◌, ◌≤ℤ◌, ℕ, ◌+◌, ◌-◌, ◌^◌, pos, length, List, ◌∷◌, ◌++◌, [], OnOk, OnErr, Err, Some, IfSome, IsSome, get_or, None, true, false};
ghost use Rattle.dn_line.specs.declared.kind.Kind.{Kind};
ghost use Rattle.dn_line.specs.declared.line.Line.{Line};
ghost use Rattle.dn_line.specs.State.RowItems.{problem_item};
ghost use Rattle.dn_instance.specs.State.Ends.{EndsWith};
ghost use Rattle.dn_instance.specs.EntryCount.{entries_so_far};
ghost use Rattle.dn_instance.specs.State.Declarations.{declared_in};
ghost use Rattle.dn_instance.specs.State.ItemFaults.{AnswersFault};
ghost use Rattle.dn_instance.specs.Texts.{items_of};
ghost use Rattle.dn_instance.specs.State.RowHeads.{counted_head, run_head};
ghost use Rattle.dn_instance.specs.State.TextsSoFar.{AfterLines, AfterRow, AtLine, ComeInTime, Declares, HasRead, IsOrderFault, NeedsAfter, NextRead, ReadsBlock, TakesItem, TakesRowOf, TextAt, fault_after, text_kind};

use crate::body::Body;
use crate::declared::Declared;
use crate::held::Held;
use crate::node_descriptors::NodeDescriptors;
use crate::refusal::ItemFault;
use dn_bundle::{Curve, Least, Total};
use dn_line::{BLOCK, Code, Head, Kind, LineReader, Row, RowBlock, letter_named};
use dn_table::TableSoFar;
use std::alloc::Global;

// The greatest number of lines that a text may have.
const LAST: u64 = (1 << 63) - 2;

// The complete lines of a text so far, none of which has a fault. Before the problem line, there is no body, and the
// numbers other than `closed` are 0.
#[derive(Drop)]
pub(crate) struct TextSoFar {
    // The number of lines.
    closed: u64,
    // NODES.
    nodes: i64,
    // The number of counted lines that the problem line declares: ARCS or K.
    count: i64,
    // How many of these lines are still to come.
    due: i64,
    // What the `n` lines make.
    descriptors: NodeDescriptors,
    // What the counted lines make.
    body: Option<Body<TableSoFar<Curve>, TableSoFar<Total>, TableSoFar<Least>>>,
}

impl TextSoFar {
    // Makes a text that has no lines.
    pub(crate) fn new(alloc: Global) -> TextSoFar
        ensures { TextAt result [] }
    {
        TextSoFar {
            closed: 0,
            nodes: 0,
            count: 0,
            due: 0,
            descriptors: NodeDescriptors::new(alloc),
            body: None,
        }
    }

    // Returns the number of the next line.
    pub(crate) fn next_number(&self) -> u64
        ensures { (ls : List (List ℕ)) → TextAt self.now ls → result ≡ length ls + 1 }
    {
        // A text has fewer than 2^63 lines (`TooLong`), so nothing saturates.
        self.closed.saturating_add(1)
    }

    // Returns the kind that the problem line names.
    fn kind(&self) -> Option<Kind>
        ensures { result ≡ text_kind self.now }
    {
        match &self.body {
            Some(body) => Some(body.kind()),
            None => None,
        }
    }

    // Whether the text may have another line after this many more lines.
    fn has_room(&self, more: u64) -> bool
        requires { more ≤ 16 }
        ensures room { result ≡ true → self.now.closed + more < 2 ^ 63 - 2 }
        ensures full { result ≡ false → 2 ^ 63 - 2 ≤ self.now.closed + more }
    {
        self.closed < LAST - more
    }

    // Returns the first fault that a line with this head has because of the lines before it. The head has no fault
    // itself.
    fn order_fault(&self, head: Head) -> Option<Code>
        ensures answer { IsOrderFault self.now head result }
        ensures skip { head ≡ Head.Skip → result ≡ None }
    {
        match head {
            Head::Node if self.due < self.count => Some(Code::LateNode),
            Head::Arc | Head::Source | Head::Query | Head::Point if self.due <= 0 => {
                Some(Code::TooManyLines)
            }
            _ => None,
        }
    }

    // Returns the head and the row of the next line.
    fn read(&self, line: &LineReader) -> Result<(Head, Row), Code>
        ensures { AtLine self.now line.now (λ items ws. NextRead (text_kind self.now) items ws result) }
    {
        let known = self.kind();
        let head = match line.head(known) {
            Ok(head) => head,
            Err(code) => return Err(code),
        };
        if let Some(code) = self.order_fault(head) {
            return Err(code);
        }
        match line.row(known, head) {
            Ok(row) => Ok((head, row)),
            Err(code) => Err(code),
        }
    }

    // Takes the row of the problem line, which is the first item.
    fn begin(&mut self, alloc: Global, kind: Kind, row: &Row)
        ensures read { TakesItem self.old self.new (problem_item kind row.now) }
        ensures kept { self.new.closed ≡ self.old.closed }
    {
        match kind {
            Kind::Min | Kind::Max | Kind::Sp => self.declare(alloc, kind, &row.first, &row.second),
            Kind::Ss | Kind::P2p | Kind::Co => self.declare(alloc, kind, &0, &row.first),
        }
    }

    // Takes the problem that the problem line declares.
    fn declare(&mut self, alloc: Global, kind: Kind, nodes: &i64, count: &i64)
        ensures read { Declares self.old self.new (record { kind = kind; nodes = nodes.now; count = count.now }) }
        ensures kept { self.new.closed ≡ self.old.closed }
    {
        self.nodes = *nodes;
        self.count = *count;
        self.due = *count;
        self.body = Some(Body::new(alloc, &kind));
    }

    // Takes the row of the next line, which has this head and no fault up to its fields, or returns the fault of its
    // item. The line is not skipped.
    #[inline(always)]
    pub(crate) fn take(&mut self, alloc: Global, head: Head, row: &Row) -> Result<(), ItemFault>
        requires room { self.now.closed < 2 ^ 63 - 2 }
        ensures answer { AfterRow self.old head row.now (λ ls l. AnswersFault result (fault_after ls l)) }
        ensures stands { AfterRow self.old head row.now (λ ls l. OnOk result (TextAt self.new (ls ++ l ∷ []))) }
        ensures item { AfterRow self.old head row.now (λ ls l. result ≡ Err ItemFault.Memory → NeedsAfter ls l) }
        ensures unchanged { (ls : List (List ℕ)) → TextAt self.old ls
            → OnErr result (TextAt self.new ls) }
        ensures counts { OnOk result (self.new.closed ≡ self.old.closed + 1) }
    {
        match self.take_item(alloc, head, row) {
            Ok(()) => {
                self.closed += 1;
                Ok(())
            }
            Err(fault) => Err(fault),
        }
    }

    // Takes the item of the row of the next line, which has this head, or returns the fault of the item. The caller
    // counts the line.
    #[inline(always)]
    fn take_item(&mut self, alloc: Global, head: Head, row: &Row) -> Result<(), ItemFault>
        ensures taken { TakesRowOf self.old self.new head row.now result }
        ensures unchanged { (before : List Line) → HasRead self.old before → OnErr result (HasRead self.new before) }
        ensures kept { self.new.closed ≡ self.old.closed }
    {
        match head {
            Head::Problem(kind) => {
                self.begin(alloc, kind, row);
                Ok(())
            }
            Head::Node => self.take_node(row),
            _ => self.take_counted(alloc, row),
        }
    }

    // Takes the row of a counted line, or returns the fault of its item.
    #[inline(always)]
    fn take_counted(&mut self, alloc: Global, row: &Row) -> Result<(), ItemFault>
        ensures taken { (kind : Kind) → text_kind self.old ≡ Some kind
            → TakesRowOf self.old self.new (counted_head kind) row.now result }
        ensures unchanged { (before : List Line) → HasRead self.old before → OnErr result (HasRead self.new before) }
        ensures kept { self.new.closed ≡ self.old.closed }
    {
        let Some(body) = &mut self.body else {
            return Err(ItemFault::Text(Code::EarlyLine));
        };
        match body.take(alloc, &self.nodes, row) {
            Ok(()) => {
                // This line is still to come, so nothing wraps.
                self.due = self.due.wrapping_sub(1);
                Ok(())
            }
            Err(fault) => Err(fault),
        }
    }

    // Takes the row of a node line, or returns the fault of its item.
    fn take_node(&mut self, row: &Row) -> Result<(), ItemFault>
        ensures taken { TakesRowOf self.old self.new Head.Node row.now result }
        ensures unchanged { (before : List Line) → HasRead self.old before → OnErr result (HasRead self.new before) }
        ensures kept { self.new.closed ≡ self.old.closed }
    {
        if self.has_terminals() {
            let letter = letter_named(&row.second);
            self.descriptors
                .take_terminal(&self.nodes, &row.first, letter)
        } else {
            self.descriptors
                .take_supply(&self.nodes, &row.first, &row.second)
        }
    }

    // Whether this is a `max` text.
    fn has_terminals(&self) -> bool
        ensures yes { result ≡ true → text_kind self.now ≡ Some Kind.Max }
        ensures no { result ≡ false → text_kind self.now ≡ Some Kind.Max → ⊥ }
    {
        matches!(&self.body, Some(Body::Max(_)))
    }

    // Takes the next line, or returns its fault.
    pub(crate) fn take_line(&mut self, alloc: Global, line: &LineReader) -> Result<(), ItemFault>
        ensures answer { AfterLines self.old line.now (λ ls l. AnswersFault result (fault_after ls l)) }
        ensures stands { AfterLines self.old line.now (λ ls l. OnOk result (TextAt self.new (ls ++ l ∷ []))) }
        ensures item { AfterLines self.old line.now (λ ls l. result ≡ Err ItemFault.Memory → NeedsAfter ls l) }
        ensures unchanged { (ls : List (List ℕ)) → TextAt self.old ls
            → OnErr result (TextAt self.new ls) }
    {
        if !self.has_room(0) {
            return Err(ItemFault::Text(Code::TooLong));
        }
        match self.read(line) {
            Ok((head, row)) => match head {
                Head::Skip => {
                    self.closed += 1;
                    Ok(())
                }
                _ => self.take(alloc, head, &row),
            },
            Err(code) => Err(ItemFault::Text(code)),
        }
    }

    // Reads the rows of plain lines at the beginning of these bytes into a block, all with the head that is returned,
    // and as many as may come next without a fault of their order. Returns `None` before the problem line, and if a
    // line of the block could be too late for a text (`TooLong`).
    pub(crate) fn read_block(
        &mut self,
        alloc: Global,
        block: &mut RowBlock,
        bytes: &[u8],
    ) -> Option<Head>
        ensures text { self.new ≡ self.old }
        ensures left { IfSome result (λ head. ReadsBlock self.old head bytes.now block.new) }
        ensures room { IsSome result → self.old.closed + length block.new < 2 ^ 63 - 2 }
    {
        if !self.has_room(BLOCK as u64) {
            return None;
        }
        let Some(kind) = self.kind() else {
            return None;
        };
        let head = row_head(kind, bytes);
        block.read(kind, self.most(head), bytes);
        if let Some(body) = &mut self.body {
            body.look_ahead(alloc, block.rows());
        }
        Some(head)
    }

    // Returns how many lines with this head may come next: at most a block of them, and no more than are still to come
    // if they are counted.
    fn most(&self, head: Head) -> usize
        ensures { 0 < result → ComeInTime self.now head result }
    {
        match (head, usize::try_from(self.due)) {
            (Head::Node, _) if self.due < self.count => 0,
            (Head::Node, _) => BLOCK,
            (_, Ok(due)) => due,
            (_, Err(_)) => 0,
        }
    }

    // Returns what the problem line declares, once it was read.
    pub(crate) fn declared(&self) -> Option<Declared>
        ensures { (ls : List (List ℕ)) → TextAt self.now ls → result ≡ declared_in (items_of ls) }
    {
        match self.kind() {
            Some(kind) => Some(Declared {
                kind,
                nodes: self.nodes,
                lines: self.count,
            }),
            None => None,
        }
    }

    // Returns how many entries the lines so far make.
    pub(crate) fn entries(&self) -> u64
        ensures { (ls : List (List ℕ)) → TextAt self.now ls
            → result ≡ entries_so_far (items_of ls) }
    {
        match &self.body {
            Some(body) => body.entries(),
            None => 0,
        }
    }

    // Returns the parsed instance at the end of the text, or the fault at the end.
    pub(crate) fn end(self) -> Result<Held, Code>
        ensures { (ls : List (List ℕ)) → TextAt self ls → EndsWith (items_of ls) result }
    {
        let TextSoFar {
            nodes,
            count,
            due,
            descriptors,
            body,
            ..
        } = self;
        let Some(body) = body else {
            return Err(Code::NoProblem);
        };
        let Some(terminals) = descriptors.terminals(&body.kind()) else {
            drop(body);
            return Err(Code::MissingTerminal);
        };
        if 0 < due {
            drop(body);
            return Err(Code::TooFewLines);
        }
        Ok(Held::new(nodes, count, descriptors.supplies, terminals, body.end()))
    }
}

// Returns the head of the plain lines at the beginning of these bytes, in a text of this kind.
fn row_head(kind: Kind, bytes: &[u8]) -> Head
    ensures { result ≡ run_head kind (get_or bytes.now 0 0) }
{
    match (kind, bytes) {
        (Kind::Min, [b'n', ..]) => Head::Node,
        (Kind::Min | Kind::Max | Kind::Sp, _) => Head::Arc,
        (Kind::Ss, _) => Head::Source,
        (Kind::P2p, _) => Head::Query,
        (Kind::Co, _) => Head::Point,
    }
}
