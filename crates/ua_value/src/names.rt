//! Names in a namespace (OPC 10000-6, 5.2.2.13).

ghost use Rattle.std.specs.Prelude.{◌+◌};
ghost use Rattle.ua_value.specs.Names.{qualified_name, lawful_qualified_name};

use crate::fault::{NoMemory, ReadFault};
use crate::fields::Parts;
use crate::text::UaString;
use crate::wire::{Sink, Wire};
use std::alloc::Global;

/// A name in a namespace. The namespace is the index of its URI in a list of the server.
#[derive(Debug, PartialEq, Eq, Drop)]
pub struct QualifiedName {
    pub namespace_index: u16,
    pub name: UaString,
}

#[tactic(auto, unfolding(crate::specs::Names::qualified_name))]
impl Wire for QualifiedName {
    ghost format = { qualified_name };

    ghost most = { 2 + 2147483651 };

    ghost Grows = { Unit {0} };

    fn len(&self) -> u64 {
        self.namespace_index.len() + self.name.len()
    }

    fn emit<S: Sink>(&self, out: &mut S) -> Result<(), NoMemory> {
        (&self.namespace_index, &self.name).emit_parts(out)
    }

    fn copy(&self) -> Result<QualifiedName, NoMemory> {
        Ok(QualifiedName {
            namespace_index: self.namespace_index,
            name: self.name.copy()?,
        })
    }

    fn read_front(alloc: Global, input: &[u8]) -> Result<(QualifiedName, &[u8]), ReadFault> {
        let (namespace_index, rest) = u16::read_front(alloc, input)?;
        let (name, rest) = UaString::read_front(alloc, rest)?;
        Ok((
            QualifiedName {
                namespace_index,
                name,
            },
            rest,
        ))
    }

    fn most_in(bytes: usize) -> usize {
        bytes / 6
    }

    ghost laws = { lawful_qualified_name };
}
