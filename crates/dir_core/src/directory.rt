ghost use Rattle.std.specs.Prelude.{◌≡◌, ◌≤◌, [], ◌∷◌, length, None, IfOk, OnOk, OnErr, Ok};
ghost use Rattle.reply_cache.specs.Standings.{with_answer};
ghost use Rattle.capabilities.specs.Stops.{is_stop};
ghost use Rattle.registry_table.specs.Registry.{is_recorded, outcome_of};
ghost use Rattle.registry_table.specs.Plans.{applied};
ghost use Rattle.server_rows.specs.Directory.{dir_of, after_record, after_registry, fresh, recorded, record_of, requested, step_of_dir, reply_to};

use capabilities::is_stop;
use registry_table::{Plan, Registry};
use reply_cache::{ReplyCache, Standing};
use std::alloc::Global;
use std::marker::Model;
use xt_base::{Copies, DIR_NODE, NodeId, Octets, OptionalBox, OutOfMemory, Seq};
use xt_messages::{Event, Logged, Msg, Payload, Record, RegistryAnswer, RegistryReq};
use xt_protocol::Turned;

/// The directory service. Contracts see its secret and its state.
pub struct Dir {
    key: Octets,
    registry: Registry,
    clients: ReplyCache<RegistryAnswer>,
}

// A derived drop is part of the code of each function that may drop a value. This one is proved once.
impl Drop for Dir {
    fn drop(self) {
        let Dir {
            key: _,
            registry: _,
            clients: _,
        } = self;
    }
}

impl Model for Dir {
    ghost use Rattle.std.specs.Prelude.{◌≤◌, length};
    ghost use Rattle.server_rows.specs.Directory.{DirNode};

    ghost Value = { DirNode };

    ghost view = { λ d.
        record { secret = d.key; state = record { rows = d.registry; clients = d.clients.kept } } };

    ghost invariant = { λ d. (1 ≤ length d.key) × (length d.key ≤ 64) };
}

/// Nothing comes of an event.
fn quiet(alloc: Global) -> Turned
    ensures { result ≡ record { rec = None; outs = []; marks = [] } }
{
    Turned {
        rec: OptionalBox::none(),
        outs: Seq::new(alloc),
        marks: Seq::new(alloc),
    }
}

/// An answer to a client, after the record on which it rests, if there is one.
fn answer(
    alloc: Global,
    rec: Option<Record>,
    client: NodeId,
    number: u64,
    answer: RegistryAnswer,
) -> Result<Turned, OutOfMemory>
    ensures { IfOk result (λ turned. turned ≡
        record { rec = rec; outs = reply_to client number answer ∷ []; marks = [] }) }
{
    let rec = OptionalBox::of(alloc, rec)?;
    let mut outs = Seq::new(alloc);
    outs.push(Msg {
        from: DIR_NODE,
        to: client,
        list: 1,
        payload: Payload::RegistryReply { number, answer },
    })?;
    Ok(Turned {
        rec,
        outs,
        marks: Seq::new(alloc),
    })
}

/// The record of a request.
fn record_of(
    alloc: Global,
    client: NodeId,
    number: u64,
    request: &RegistryReq,
) -> Result<Record, OutOfMemory>
    ensures { IfOk result (λ rec. rec ≡ record_of client number request.now) }
{
    let request = request.copy(alloc)?;
    Ok(Record::Meta {
        from: client,
        number,
        now: 0,
        nodes: None,
        request: Logged::Registry { request },
    })
}

/// Whether a request is recorded: those that may change the registry are.
fn is_recorded(request: &RegistryReq) -> bool
    ensures { result ≡ is_recorded request.now }
{
    matches!(
        request,
        RegistryReq::Set { .. } | RegistryReq::Remove { .. }
    )
}

impl Dir {
    /// The service that the records determine, under a key of 1 to 64 bytes.
    pub fn start(alloc: Global, key: &[u8], records: &[Record]) -> Result<Dir, OutOfMemory>
        requires some { 1 ≤ length key.now }
        requires short { length key.now ≤ 64 }
        ensures { IfOk result (λ dir. dir ≡
            record { secret = key.now; state = dir_of records.now }) }
    {
        let mut dir = Dir {
            key: Octets::of(alloc, key)?,
            registry: Registry::new(alloc),
            clients: ReplyCache::new(alloc),
        };
        for rec in records {
            dir.take(alloc, rec)?;
        }
        Ok(dir)
    }

    /// The node of the service.
    pub fn id(&self) -> NodeId
        ensures { result ≡ DIR_NODE }
    {
        DIR_NODE
    }

    /// Whether a message ends the service: a Stop with the right tag.
    pub fn stops(&self, msg: &Msg) -> Result<bool, OutOfMemory>
        ensures { result ≡ Ok (is_stop self.now.secret msg.now.payload) }
    {
        is_stop(self.key.as_slice(), &msg.payload)
    }

    /// Handles an event. The service is unchanged if memory runs out.
    #[tactic(auto, unfolding(server_rows::specs::Directory::step_of_dir))]
    pub fn step(&mut self, alloc: Global, event: &Event) -> Result<Turned, OutOfMemory>
        ensures turned { IfOk result (λ turned. turned ≡
            (step_of_dir self.old.state event.now).turned) }
        ensures state { OnOk result (self.new ≡
            record {
              secret = self.old.secret;
              state = (step_of_dir self.old.state event.now).dir;
            }) }
        ensures err { OnErr result (self.new ≡ self.old) }
    {
        let Event::Deliver(msg) = event else {
            return Ok(quiet(alloc));
        };
        let Payload::Registry { number, request } = &msg.payload else {
            return Ok(quiet(alloc));
        };
        self.requested(alloc, msg.from, *number, request)
    }

    /// Handles a request, by the client's last recorded number.
    fn requested(
        &mut self,
        alloc: Global,
        client: NodeId,
        number: u64,
        request: &RegistryReq,
    ) -> Result<Turned, OutOfMemory>
        ensures turned { IfOk result (λ turned. turned ≡
            (requested self.old.state client number request.now).turned) }
        ensures state { OnOk result (self.new ≡
            record {
              secret = self.old.secret;
              state = (requested self.old.state client number request.now).dir;
            }) }
        ensures err { OnErr result (self.new ≡ self.old) }
    {
        match self.clients.standing(alloc, client, number)? {
            Standing::Fresh => self.fresh(alloc, client, number, request),
            Standing::Again { answer: kept } => answer(alloc, None, client, number, kept),
            Standing::Older => Ok(quiet(alloc)),
        }
    }

    /// Handles a request under a number above the client's last recorded one.
    fn fresh(
        &mut self,
        alloc: Global,
        client: NodeId,
        number: u64,
        request: &RegistryReq,
    ) -> Result<Turned, OutOfMemory>
        ensures turned { IfOk result (λ turned. turned ≡
            (fresh self.old.state client number request.now).turned) }
        ensures state { OnOk result (self.new ≡
            record {
              secret = self.old.secret;
              state = (fresh self.old.state client number request.now).dir;
            }) }
        ensures err { OnErr result (self.new ≡ self.old) }
    {
        if self.registry.is_spent(request) {
            return Ok(quiet(alloc));
        }
        let plan = self.registry.plan(alloc, request)?;
        if !is_recorded(request) {
            return answer(alloc, None, client, number, plan.answer);
        }
        self.record(alloc, client, number, request, plan)
    }

    /// Makes a planned change, with its record and its answer.
    fn record(
        &mut self,
        alloc: Global,
        client: NodeId,
        number: u64,
        request: &RegistryReq,
        plan: Plan,
    ) -> Result<Turned, OutOfMemory>
        requires { record { rows = applied self.old.state.rows plan.change; answer = plan.answer } ≡
            outcome_of self.old.state.rows request.now }
        ensures turned { IfOk result (λ turned. turned ≡
            (recorded self.old.state client number request.now).turned) }
        ensures state { OnOk result (self.new ≡
            record {
              secret = self.old.secret;
              state = (recorded self.old.state client number request.now).dir;
            }) }
        ensures err { OnErr result (self.new ≡ self.old) }
    {
        let rec = record_of(alloc, client, number, request)?;
        let turned = answer(alloc, Some(rec), client, number, plan.answer.copy(alloc)?)?;
        self.commit(client, number, plan)?;
        Ok(turned)
    }

    /// Makes a planned change, and keeps the number and the answer for the client. Nothing changes if memory runs out.
    fn commit(&mut self, client: NodeId, number: u64, plan: Plan) -> Result<(), OutOfMemory>
        ensures ok { OnOk result (self.new ≡
            record {
              secret = self.old.secret;
              state = record {
                rows = applied self.old.state.rows plan.change;
                clients = with_answer self.old.state.clients client number plan.answer;
              };
            }) }
        ensures err { OnErr result (self.new ≡ self.old) }
    {
        self.clients.reserve()?;
        self.registry.apply(plan.change)?;
        self.clients.keep(client, number, plan.answer);
        Ok(())
    }

    /// Takes what a record says.
    fn take(&mut self, alloc: Global, rec: &Record) -> Result<(), OutOfMemory>
        ensures ok { OnOk result (self.new ≡
            record { secret = self.old.secret; state = after_record self.old.state rec.now }) }
        ensures err { OnErr result (self.new ≡ self.old) }
    {
        match rec {
            Record::Meta {
                from,
                number,
                request: Logged::Registry { request },
                ..
            } => self.repeat(alloc, *from, *number, request),
            _ => Ok(()),
        }
    }

    /// Does what a request does that is recorded; any other changes nothing, nor does running out of memory.
    fn repeat(
        &mut self,
        alloc: Global,
        client: NodeId,
        number: u64,
        request: &RegistryReq,
    ) -> Result<(), OutOfMemory>
        ensures ok { OnOk result (self.new ≡
            record {
              secret = self.old.secret;
              state = after_registry self.old.state client number request.now;
            }) }
        ensures err { OnErr result (self.new ≡ self.old) }
    {
        if self.registry.is_spent(request) || !is_recorded(request) {
            return Ok(());
        }
        let plan = self.registry.plan(alloc, request)?;
        self.commit(client, number, plan)
    }
}
