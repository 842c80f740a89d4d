//! Node ids with the URI of a namespace and the index of a server (OPC 10000-6, 5.2.2.10).

ghost use Rattle.std.specs.Prelude.{◌≡◌, ◌≤◌, ◌<◌, ◌^◌, ◌+◌, ◌++◌, length, OnOk, OnErr};
ghost use Rattle.ua_value.specs.Localized.{canon_part};
ghost use Rattle.ua_value.specs.Format.{AppendsPart};
ghost use Rattle.ua_value.specs.Expanded.{expanded_node_id, canon_index};
ghost use Rattle.ua_value.specs.ExpandedLaws.{lawful_expanded};

use crate::fault::{NoMemory, ReadFault};
use crate::fields::read_part;
use crate::localized::{emit_part, is_flagged, part_len};
use crate::node::{NodeId, read_behind};
use crate::text::UaString;
use crate::wire::{Sink, Wire};
use std::alloc::Global;

/// A node id, the URI of its namespace, which is null where it is absent, and the index of its server, which is 0 where
/// it is absent. A null URI or an index 0 that is flagged reads as absent.
#[derive(Debug, PartialEq, Eq, Drop)]
pub struct ExpandedNodeId {
    pub node_id: NodeId,
    pub namespace_uri: UaString,
    pub server_index: u32,
}

/// Puts what follows the node id.
#[tactic(auto, unfolding(crate::specs::Number::unsigned))]
fn emit_others<S: Sink>(uri: &UaString, server: u32, out: &mut S) -> Result<(), NoMemory>
    ensures ok { OnOk result (S.contents out.new ≡ S.contents out.old ++ (canon_part uri.now ++ canon_index server)) }
    ensures err { OnErr result (AppendsPart (S.contents out.old) (S.contents out.new) (canon_part uri.now ++ canon_index server)) }
{
    emit_part(uri, out)?;
    if server == 0 {
        Ok(())
    } else {
        server.emit(out)
    }
}

#[tactic(auto, unfolding(crate::specs::Number::unsigned))]
fn index_len(server: u32) -> u64
    ensures length { result ≡ length (canon_index server) }
    ensures value { server < 2 ^ 32 }
    ensures bound { result ≤ 4 }
{
    if server == 0 { 0 } else { 4 }
}

#[tactic(auto, unfolding(crate::specs::Expanded::expanded_node_id))]
impl Wire for ExpandedNodeId {
    ghost format = { expanded_node_id };

    ghost most = { 2147483654 + 2147483651 + 4 };

    ghost Grows = { Unit {0} };

    #[tactic(auto, using(crate::specs::ExpandedLaws::length_expanded), unfolding(crate::specs::Expanded::expanded_node_id))]
    fn len(&self) -> u64 {
        self.node_id.len() + part_len(&self.namespace_uri) + index_len(self.server_index)
    }

    fn emit<S: Sink>(&self, out: &mut S) -> Result<(), NoMemory> {
        let uri = if is_flagged(&self.namespace_uri) {
            0x80
        } else {
            0
        };
        let server = if self.server_index == 0 { 0 } else { 0x40 };
        self.node_id.emit_raised(uri + server, out)?;
        emit_others(&self.namespace_uri, self.server_index, out)
    }

    fn copy(&self) -> Result<ExpandedNodeId, NoMemory> {
        Ok(ExpandedNodeId {
            node_id: self.node_id.copy()?,
            namespace_uri: self.namespace_uri.copy()?,
            server_index: self.server_index,
        })
    }

    fn read_front(alloc: Global, input: &[u8]) -> Result<(ExpandedNodeId, &[u8]), ReadFault> {
        let [mask, rest @ ..] = input else {
            return Err(ReadFault::Refused);
        };
        let mask = *mask;
        let (node_id, rest) = read_behind(alloc, mask % 64, rest)?;
        let (namespace_uri, rest) = read_part(alloc, mask & 0x80 != 0, UaString::null(), rest)?;
        let (server_index, rest) = read_part(alloc, mask & 0x40 != 0, 0u32, rest)?;
        Ok((
            ExpandedNodeId {
                node_id,
                namespace_uri,
                server_index,
            },
            rest,
        ))
    }

    fn most_in(bytes: usize) -> usize {
        bytes / 2
    }

    ghost laws = { lawful_expanded };
}
