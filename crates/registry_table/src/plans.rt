ghost use Rattle.std.specs.Prelude.{◌≡◌, ◌<◌, ◌+◌, ◌^◌, IfOk};
ghost use Rattle.registry_table.specs.Registry.{row_of, version_in, row_set, row_removed, is_spent, outcome_of};
ghost use Rattle.registry_table.specs.Plans.{applied, HasRoom};

use crate::registry::{Change, Registered, Registry};
use std::alloc::Global;
use xt_base::{COUNTS, Copies, Name, NodeId, OutOfMemory};
use xt_messages::{RegistryAnswer, RegistryReq};

/// What comes of a request: what it does to the registry, and what is answered.
#[derive(Drop)]
pub struct Plan {
    pub change: Change,
    pub answer: RegistryAnswer,
}

impl Registry {
    /// Whether a Set would make a version past the last one.
    pub fn is_spent(&self, request: &RegistryReq) -> bool
        ensures { result ≡ is_spent self.now request.now }
    {
        match request {
            RegistryReq::Set { node, expected, .. } => {
                self.version(*node) == *expected && *expected >= COUNTS - 1
            }
            _ => false,
        }
    }

    /// Works out what comes of a request.
    pub fn plan(&self, alloc: Global, request: &RegistryReq) -> Result<Plan, OutOfMemory>
        requires { HasRoom self.now request.now }
        ensures { IfOk result (λ plan.
            record { rows = applied self.now plan.change; answer = plan.answer } ≡
            outcome_of self.now request.now) }
    {
        match request {
            RegistryReq::Set {
                node,
                kind,
                address,
                expected,
            } => self.plan_set(alloc, *node, *kind, address, *expected),
            RegistryReq::Get { node } => Ok(Plan {
                change: Change::Stay,
                answer: match self.row(alloc, *node)? {
                    Some(row) => RegistryAnswer::Row { row },
                    None => RegistryAnswer::Absent,
                },
            }),
            RegistryReq::List { kind, after } => Ok(Plan {
                change: Change::Stay,
                answer: RegistryAnswer::Rows {
                    rows: self.page(alloc, *kind, *after)?,
                },
            }),
            RegistryReq::Remove { node, expected } => Ok(self.plan_remove(*node, *expected)),
        }
    }

    /// Works out what comes of a Set.
    fn plan_set(
        &self,
        alloc: Global,
        node: NodeId,
        kind: u8,
        address: &Name,
        expected: u64,
    ) -> Result<Plan, OutOfMemory>
        requires { version_in (row_of self.now node.0) ≡ expected → expected + 1 < 2 ^ 64 }
        ensures { IfOk result (λ plan.
            record { rows = applied self.now plan.change; answer = plan.answer } ≡
            row_set self.now node.0 kind address.now expected
            (version_in (row_of self.now node.0))) }
    {
        let version = self.version(node);
        if expected != version {
            return Ok(Plan {
                change: Change::Stay,
                answer: RegistryAnswer::Changed { version },
            });
        }
        let version = version + 1;
        let row = Registered {
            kind,
            address: address.copy(alloc)?,
            version,
        };
        Ok(Plan {
            change: Change::Put { node, row },
            answer: RegistryAnswer::Done { version },
        })
    }

    /// Works out what comes of a Remove.
    fn plan_remove(&self, node: NodeId, expected: u64) -> Plan
        ensures { record { rows = applied self.now result.change; answer = result.answer } ≡
            row_removed self.now node.0 expected (version_in (row_of self.now node.0)) }
    {
        let version = self.version(node);
        if version != expected {
            Plan {
                change: Change::Stay,
                answer: RegistryAnswer::Changed { version },
            }
        } else if version == 0 {
            Plan {
                change: Change::Stay,
                answer: RegistryAnswer::Absent,
            }
        } else {
            Plan {
                change: Change::Remove { node },
                answer: RegistryAnswer::Done { version: 0 },
            }
        }
    }
}
