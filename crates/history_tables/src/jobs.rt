//! The jobs that copy points to nodes: the last one at each node, and the last one of each lane.

ghost use Rattle.std.specs.Prelude.{◌≡◌, ◌≤◌, ◌==◌, not, map, vec_capacity, vec_len};
ghost use Rattle.std.specs.List.{filter};
ghost use Rattle.history_tables.specs.JobRows.{new_job_row, is_going, row_by, keyed_by, key_of};

use nrt_base::{At, LineNo, NodeNo, Version};
use std::alloc::{AllocError, Global};
use std::marker::Model;

/// A job that copies a point to a node for a line.
#[derive(Clone, Copy, Debug, PartialEq, Eq)]
pub struct Job {
    pub at: At,
    pub node: NodeNo,
    pub number: u64,
    pub version: Version,
}

/// What is remembered of a job.
#[derive(Clone, Copy, Debug)]
pub struct JobRow {
    pub job: Job,
    /// How many printed entries stood before it began.
    pub before: usize,
    pub ended: bool,
    /// The version of the first later job that began at the node while this one went on.
    pub later: Option<Version>,
}

/// What an entry of inner work does to jobs.
#[derive(Clone, Copy, Debug)]
pub enum JobStep {
    Begins(Job),
    /// The job of this line with this number at the node ends.
    Ends(LineNo, NodeNo, u64),
    Passes,
}

/// A job under the number of its node, or of its lane.
#[derive(Clone, Copy, Debug)]
pub struct KeyedJob {
    pub key: u8,
    pub row: JobRow,
}

/// What is remembered of jobs, each under a key.
#[derive(Debug, Drop)]
pub struct JobTable {
    rows: Vec<KeyedJob>,
}

impl Model for JobTable {
    ghost use Rattle.std.specs.Prelude.{vec_capacity, vec_len, ◌-◌};
    ghost use Rattle.history_tables.specs.JobRows.{JobRows};

    ghost Value = { JobRows };

    ghost view = { λ l. record { rows = l.rows.items; room = vec_capacity l.rows - vec_len l.rows } };
}

fn key_of(job: Job, lanes: bool) -> u8
    ensures { result ≡ key_of lanes job }
{
    if lanes { job.at.lane.0 } else { job.node.0 }
}

impl JobRow {
    fn first(job: Job, before: usize) -> Self
        ensures { result ≡ new_job_row job before }
    {
        JobRow {
            job,
            before,
            ended: false,
            later: None,
        }
    }

    fn is_going(self) -> bool
        ensures { result ≡ is_going self }
    {
        !self.ended && self.later.is_none()
    }

    fn after(self, step: JobStep) -> Self
        ensures { result ≡ row_by step self }
    {
        match step {
            JobStep::Begins(job) => {
                if self.job.node.0 == job.node.0 && self.is_going() {
                    JobRow {
                        later: Some(job.version),
                        ..self
                    }
                } else {
                    self
                }
            }
            JobStep::Ends(line, node, number) => {
                if self.job.at.line.0 == line.0
                    && self.job.node.0 == node.0
                    && self.job.number == number
                {
                    JobRow {
                        ended: true,
                        ..self
                    }
                } else {
                    self
                }
            }
            JobStep::Passes => self,
        }
    }
}

impl KeyedJob {
    fn after(self, step: JobStep) -> Self
        ensures { result ≡ keyed_by step self }
    {
        KeyedJob {
            key: self.key,
            row: self.row.after(step),
        }
    }
}

fn each_after(rows: &mut Vec<KeyedJob>, step: JobStep)
    ensures capacity { vec_capacity rows.new ≡ vec_capacity rows.old }
    ensures rows { rows.new.items ≡ map (keyed_by step) rows.old.items }
{
    for i in 0..rows.len() {
        let row = rows[i];
        rows[i] = row.after(step);
    }
}

fn without(rows: &mut Vec<KeyedJob>, key: u8)
    ensures capacity { vec_capacity rows.new ≡ vec_capacity rows.old }
    ensures length { vec_len rows.new ≤ vec_len rows.old }
    ensures rows { rows.new.items ≡ filter (λ r. not (r.key == key)) rows.old.items }
{
    rows.retain(|row| !(row.key == key));
}

impl JobTable {
    ghost use Rattle.std.specs.Prelude.{ℕ, ◌≡◌, ◌≤◌, ◌==◌, Option, None, Some, [], true, if◌then◌else◌, OnOk};
    ghost use Rattle.history_tables.specs.JobRows.{is_begin, row_under, row_if_some, last_job_by};

    pub fn new(alloc: Global) -> Self
        ensures { result.rows ≡ [] }
    {
        JobTable {
            rows: Vec::new(alloc),
        }
    }

    /// What is remembered under a key.
    pub fn get(&self, key: u8) -> Option<JobRow>
        ensures { result ≡ row_under self.now.rows key }
    {
        for row in self.rows.as_slice() {
            if row.key == key {
                return Some(row.row);
            }
        }
        None
    }

    /// Makes room for one more.
    pub fn reserve(&mut self) -> Result<(), AllocError>
        ensures rows { self.new.rows ≡ self.old.rows }
        ensures room { OnOk result (1 ≤ self.new.room) }
    {
        self.rows.reserve(1)
    }

    #[tactic(auto, using(crate::proofs::JobRowLemmas::job_row_kept))]
    fn forget(&mut self, key: u8)
        ensures room { self.old.room ≤ self.new.room }
        ensures rows { (k : ℕ) → row_under self.new.rows k
            ≡ (if key == k then None else row_under self.old.rows k) }
    {
        without(&mut self.rows, key);
    }

    #[tactic(auto, using(crate::proofs::JobRowLemmas::job_row_last))]
    fn remember(&mut self, key: u8, row: JobRow)
        requires room { 1 ≤ self.old.room }
        requires fresh { row_under self.old.rows key ≡ None }
        ensures { (k : ℕ) → row_under self.new.rows k
            ≡ (if key == k then Some row else row_under self.old.rows k) }
    {
        self.rows.push_reserved(KeyedJob { key, row });
    }

    fn put(&mut self, key: u8, row: JobRow)
        requires { 1 ≤ self.old.room }
        ensures { (k : ℕ) → row_under self.new.rows k
            ≡ (if key == k then Some row else row_under self.old.rows k) }
    {
        self.forget(key);
        self.remember(key, row);
    }

    #[tactic(auto, using(crate::proofs::JobRowLemmas::job_row_after))]
    fn go_on(&mut self, step: JobStep)
        ensures room { self.old.room ≤ self.new.room }
        ensures rows { (k : ℕ) → row_under self.new.rows k
            ≡ row_if_some step (row_under self.old.rows k) }
    {
        each_after(&mut self.rows, step);
    }

    /// After one more step, where so many printed entries stood before it. The keys are lanes,
    /// or nodes.
    pub fn step(&mut self, lanes: bool, step: JobStep, before: usize)
        requires { is_begin step ≡ true → 1 ≤ self.old.room }
        ensures { (k : ℕ) → row_under self.new.rows k
            ≡ last_job_by lanes k step before (row_under self.old.rows k) }
    {
        self.go_on(step);
        if let JobStep::Begins(job) = step {
            self.put(key_of(job, lanes), JobRow::first(job, before));
        }
    }
}
