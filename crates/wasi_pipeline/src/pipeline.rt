ghost use Rattle.std.specs.Prelude.{◌≡◌, ◌+◌, ◌-◌, ◌^◌, ◌<◌, ◌≤◌, IfOk, OnOk, OnErr};
ghost use Rattle.wasi_base.specs.Causes.{Rose};
ghost use Rattle.wasi_base.specs.Source as given;
ghost use Rattle.wasi_pipeline.specs.Feeding.{OnFailed};
ghost use Rattle.wasi_pipeline.specs.Steps.{new_pipe, stepped, size_read, IsStep, IsBound, HasBound};
ghost use Rattle.wasi_pipeline.specs.declared.line.Line.TheVariants as step;

use crate::chain::{drain_last, turn_at};
use crate::feed::Feeder;
use crate::kind::StageKind;
use crate::line::Line;
use crate::stage::{Channel, Stage, Turn};
use std::alloc::Global;
use std::marker::Model;
use wasi_base::{OutOfMemory, Source};
use wasi_reply::{Reply, Told};

/// A chain of links and stages that carries one input to a reader.
#[derive(Drop)]
pub struct Pipeline {
    feeder: Feeder,
    input: Option<Channel>,
    stages: Vec<Stage>,
}

impl Model for Pipeline {
    ghost use Rattle.wasi_pipeline.specs.Steps.{PipelineState, RestsFor};

    ghost Value = { PipelineState };

    ghost view = { λ pipeline. record { pipe = record { input = pipeline.input; stages = pipeline.stages.items }; deliveries = pipeline.feeder.deliveries } };

    ghost invariant = { λ pipeline. RestsFor pipeline.input pipeline.feeder };
}

impl Pipeline {
    /// No link and no stage.
    pub fn new(alloc: Global) -> Result<Pipeline, OutOfMemory>
        ensures { IfOk result (λ pipeline. pipeline ≡ record { pipe = new_pipe; deliveries = 0 }) }
    {
        let feeder = Feeder::new(alloc)?;
        Ok(Pipeline {
            feeder,
            input: None,
            stages: Vec::new(alloc),
        })
    }

    #[tactic(auto, using(crate::proofs::ReplyFacts::unfailed))]
    /// One step. `closed` is also the reply to a step before the first link, and to a second
    /// link 0. Out of memory leaves the pipeline and the input as they were.
    pub fn step<I: Source>(
        &mut self,
        alloc: Global,
        line: &Line,
        stdin: &mut I,
    ) -> Result<Reply, OutOfMemory>
        requires bound { HasBound line.now }
        requires count { self.old.deliveries < 2 ^ 64 - 1 }
        ensures step { IfOk result (λ reply. IsStep (I.told stdin.old) (I.told stdin.new) self.old.pipe self.new.pipe line.now reply) }
        ensures unread { size_read line.now self.old.pipe ≡ 0 → stdin.new ≡ stdin.old }
        ensures later { I.faults stdin.old ≤ I.faults stdin.new }
        ensures fault { IfOk result (λ reply. OnFailed reply (Rose (I.faults stdin.old) (I.faults stdin.new))) }
        ensures err { OnErr result ((self.new ≡ self.old) × (stdin.new ≡ stdin.old)) }
        ensures count { self.new.deliveries ≤ self.old.deliveries + 1 }
    {
        match *line {
            Line::Link { bound } => self.add_link(alloc, bound),
            Line::Stage { kind, bound } => self.add_stage(alloc, kind, bound),
            Line::Feed { most } => Ok(self.feed(stdin, most)),
            Line::Turn { stage, turn } => Ok(self.turn(stage, turn)),
            Line::Drain { most } => self.drain(alloc, most),
        }
    }

    fn add_link(&mut self, alloc: Global, bound: u32) -> Result<Reply, OutOfMemory>
        requires { IsBound bound }
        ensures reply { IfOk result (λ reply. reply ≡ (stepped (step.Link bound) given.End self.old.pipe).reply) }
        ensures after { OnOk result (self.new ≡ record { pipe = (stepped (step.Link bound) given.End self.old.pipe).pipe; deliveries = self.old.deliveries }) }
        ensures no_fault { IfOk result (λ reply. OnFailed reply ⊥) }
        ensures err { OnErr result (self.new ≡ self.old) }
    {
        match &self.input {
            Some(_) => Ok(Reply::Told(Told::Closed)),
            None => {
                let channel = Channel::new(alloc, bound)?;
                self.input = Some(channel);
                Ok(Reply::Told(Told::Ok))
            }
        }
    }

    fn add_stage(
        &mut self,
        alloc: Global,
        kind: StageKind,
        bound: u32,
    ) -> Result<Reply, OutOfMemory>
        requires { IsBound bound }
        ensures reply { IfOk result (λ reply. reply ≡ (stepped (step.Stage kind bound) given.End self.old.pipe).reply) }
        ensures after { OnOk result (self.new ≡ record { pipe = (stepped (step.Stage kind bound) given.End self.old.pipe).pipe; deliveries = self.old.deliveries }) }
        ensures no_fault { IfOk result (λ reply. OnFailed reply ⊥) }
        ensures err { OnErr result (self.new ≡ self.old) }
    {
        match &self.input {
            None => Ok(Reply::Told(Told::Closed)),
            Some(_) => {
                let stage = Stage::new(alloc, kind, bound)?;
                self.stages.push(stage)?;
                Ok(Reply::Told(Told::Ok))
            }
        }
    }

    fn feed<I: Source>(&mut self, stdin: &mut I, most: u32) -> Reply
        requires count { self.old.deliveries < 2 ^ 64 - 1 }
        ensures step { IsStep (I.told stdin.old) (I.told stdin.new) self.old.pipe self.new.pipe (step.Feed most) result }
        ensures unread { size_read (step.Feed most) self.old.pipe ≡ 0 → stdin.new ≡ stdin.old }
        ensures later { I.faults stdin.old ≤ I.faults stdin.new }
        ensures fault { OnFailed result (Rose (I.faults stdin.old) (I.faults stdin.new)) }
        ensures count { self.new.deliveries ≤ self.old.deliveries + 1 }
    {
        match &mut self.input {
            None => Reply::Told(Told::Closed),
            Some(channel) => self.feeder.feed(stdin, channel, most),
        }
    }

    fn turn(&mut self, stage: u32, turn: Turn) -> Reply
        ensures reply { result ≡ (stepped (step.Turn stage turn) given.End self.old.pipe).reply }
        ensures after { self.new ≡ record { pipe = (stepped (step.Turn stage turn) given.End self.old.pipe).pipe; deliveries = self.old.deliveries } }
        ensures no_fault { OnFailed result ⊥ }
    {
        match &mut self.input {
            None => Reply::Told(Told::Closed),
            Some(channel) => turn_at(
                channel,
                self.stages.as_mut_slice(),
                stage.saturating_sub(1),
                turn,
            ),
        }
    }

    fn drain(&mut self, alloc: Global, most: u32) -> Result<Reply, OutOfMemory>
        ensures reply { IfOk result (λ reply. reply ≡ (stepped (step.Drain most) given.End self.old.pipe).reply) }
        ensures after { OnOk result (self.new ≡ record { pipe = (stepped (step.Drain most) given.End self.old.pipe).pipe; deliveries = self.old.deliveries }) }
        ensures no_fault { IfOk result (λ reply. OnFailed reply ⊥) }
        ensures err { OnErr result (self.new ≡ self.old) }
    {
        match &mut self.input {
            None => Ok(Reply::Told(Told::Closed)),
            Some(channel) => drain_last(alloc, channel, self.stages.as_mut_slice(), most),
        }
    }
}
