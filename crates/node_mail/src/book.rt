ghost use Rattle.std.specs.Prelude.{◌≡◌, [], OnOk, OnErr};
ghost use Rattle.node_runs.specs.Hearing.{address_of, with_address, with_row, with_rows, with_answer, learns};

use std::alloc::Global;
use std::collections::BTreeMap;
use std::marker::Model;
use xt_base::{Address, DIR_NODE, NodeId, OutOfMemory};
use xt_messages::{Msg, Payload, RegistryAnswer, RegistryRow};

/// Where nodes are reached. Contracts see the list, rising by node.
#[derive(Drop)]
pub struct Book {
    rows: BTreeMap<u32, Address>,
}

impl Model for Book {
    ghost use Rattle.std.specs.Prelude.{List, ℕ};

    ghost Value = { List (ℕ × List ℕ) };

    ghost view = { λ b. b.rows.entries };
}

impl Book {
    /// No address.
    pub fn new(alloc: Global) -> Book
        ensures { result ≡ [] }
    {
        Book {
            rows: BTreeMap::new(alloc),
        }
    }

    /// Where a node is reached.
    pub fn address(&self, node: NodeId) -> Option<Address>
        ensures { result ≡ address_of self.now node }
    {
        self.rows.get(&node.0).copied()
    }

    /// A node is reached there from now on.
    pub fn put(&mut self, node: NodeId, address: Address) -> Result<(), OutOfMemory>
        ensures { OnOk result (self.new ≡ with_address self.old node address) }
    {
        self.rows.insert(node.0, address)?;
        Ok(())
    }

    /// Learns a row of the registry, if its address isn't too long, and its node isn't 0 or the DIR, which is reached where the node was
    /// told that it is.
    fn put_row(&mut self, row: &RegistryRow) -> Result<(), OutOfMemory>
        ensures { OnOk result (self.new ≡ with_row self.old row.now) }
    {
        if row.node.0 == 0 || row.node == DIR_NODE {
            return Ok(());
        }
        match Address::of(row.address.as_str()) {
            Some(address) => self.put(row.node, address),
            None => Ok(()),
        }
    }

    /// Learns rows of the registry, one after the other.
    fn put_rows(&mut self, rows: &[RegistryRow]) -> Result<(), OutOfMemory>
        ensures { OnOk result (self.new ≡ with_rows self.old rows.now) }
    {
        for row in rows {
            self.put_row(row)?;
        }
        Ok(())
    }

    /// Learns what the DIR answers.
    fn put_answer(&mut self, answer: &RegistryAnswer) -> Result<(), OutOfMemory>
        ensures { OnOk result (self.new ≡ with_answer self.old answer.now) }
    {
        match answer {
            RegistryAnswer::Row { row } => self.put_row(row),
            RegistryAnswer::Rows { rows } => self.put_rows(rows.as_slice()),
            RegistryAnswer::Done { .. } | RegistryAnswer::Changed { .. } | RegistryAnswer::Absent =>
                Ok(()),
        }
    }

    /// Learns from a message, if it is an answer of the DIR.
    pub fn learn(&mut self, msg: &Msg) -> Result<(), OutOfMemory>
        ensures { OnOk result (self.new ≡ learns self.old msg.now) }
    {
        if msg.from != DIR_NODE {
            return Ok(());
        }
        match &msg.payload {
            Payload::RegistryReply { answer, .. } => self.put_answer(answer),
            _ => Ok(()),
        }
    }
}
