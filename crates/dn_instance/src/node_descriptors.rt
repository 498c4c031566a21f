// Takes `n` lines as they arrive.
ghost use Rattle.std.specs.Prelude.{◌≡◌, [], OnErr, Err, false};
ghost use Rattle.dn_line.specs.declared.line.Line.TheVariants.{Supply, Terminal};
ghost use Rattle.dn_line.specs.declared.kind.Kind.{Kind};
ghost use Rattle.dn_line.specs.LineTable.{is_companion};
ghost use Rattle.dn_instance.specs.State.Bodies.{Keeps, TakesRow};
ghost use Rattle.dn_instance.specs.State.TextParts.{DescriptorsHold, terminals_of};

use crate::items::{insert_supply, set_terminal};
use crate::refusal::ItemFault;
use dn_line::{Kind, Letter};
use dn_nodes::NodeMap;
use std::alloc::Global;

// What the `n` lines so far make. A text of a kind without such lines has none of these.
#[derive(Drop)]
pub(crate) struct NodeDescriptors {
    // The nodes with an `n` line. One whose flow is 0 has no value.
    pub(crate) supplies: NodeMap<i64>,
    pub(crate) source: Option<i64>,
    pub(crate) sink: Option<i64>,
}

impl NodeDescriptors {
    // Makes the descriptors of a text without `n` lines.
    pub(crate) fn new(alloc: Global) -> NodeDescriptors
        ensures { DescriptorsHold result [] }
    {
        NodeDescriptors {
            supplies: NodeMap::new(alloc),
            source: None,
            sink: None,
        }
    }

    // Takes a `min` node line, or returns its fault.
    pub(crate) fn take_supply(&mut self, nodes: &i64, id: &i64, flow: &i64) -> Result<(), ItemFault>
        ensures taken { (kind : Kind) → is_companion kind ≡ false
            → TakesRow kind nodes.now (DescriptorsHold self.old) (DescriptorsHold self.new)
            (Supply id.now flow.now) result }
        ensures unchanged { OnErr result (Keeps (DescriptorsHold self.old) (DescriptorsHold self.new)) }
    {
        insert_supply(&mut self.supplies, nodes, id, flow)
    }

    // Takes a `max` node line, or returns its fault.
    pub(crate) fn take_terminal(
        &mut self,
        nodes: &i64,
        id: &i64,
        letter: Letter,
    ) -> Result<(), ItemFault>
        ensures taken { (kind : Kind) → is_companion kind ≡ false
            → TakesRow kind nodes.now (DescriptorsHold self.old) (DescriptorsHold self.new)
            (Terminal id.now letter) result }
        ensures unchanged { OnErr result (Keeps (DescriptorsHold self.old) (DescriptorsHold self.new)) }
        ensures memory { result ≡ Err ItemFault.Memory → ⊥ }
    {
        match letter {
            Letter::S => set_terminal(&mut self.source, &self.sink, nodes, id),
            Letter::T => set_terminal(&mut self.sink, &self.source, nodes, id),
        }
    }

    // Returns the source and the sink of a whole text of this kind, or none if one is missing. A text of a kind without
    // terminals has (0, 0).
    pub(crate) fn terminals(&self, kind: &Kind) -> Option<(i64, i64)>
        ensures { result ≡ terminals_of kind.now self.now.source self.now.sink }
    {
        match kind {
            Kind::Max => match self.source {
                Some(source) => match self.sink {
                    Some(sink) => Some((source, sink)),
                    None => None,
                },
                None => None,
            },
            _ => Some((0, 0)),
        }
    }
}
