// The walk over a tree for an instance.
ghost use Rattle.std.specs.Prelude.{◌≡◌, ◌+◌, ◌<◌, ◌^◌, ◌++◌, ◌∷◌, [], List, IfOk, OnOk, length};
ghost use Rattle.tetri_cert.specs.Trees.{nodes_in};
ghost use Rattle.tetri_cert.specs.declared.certificate.Certificate.TheVariants as certificates;
ghost use Rattle.tetri_cert.specs.declared.marks.Mark.{Mark};
ghost use Rattle.tetri_judge.specs.Seen.{Tells, WalksProgram, WalksTree, WalksWhereOneMay};
ghost use Rattle.tetri_space.specs.Sound.{IsSound};
ghost use Rattle.tetri_space.specs.Space.{Space, space};

use crate::seen::Seen;
use std::alloc::{AllocError, Global};
use tetri_cert::{Certificate, Mark, TreeFault, TreeWhy, Walk, count_nodes};
use tetri_claims::may_have_tree;
use tetri_compile::{Compiled, compile, size};
use tetri_ip::Program;
use tetri_space::{Instance, find_partitions};

// A walk, and the program that it goes over.
#[derive(Drop)]
struct ProgramWalk {
    program: Program,
    walk: Walk,
}

// The walk before the first mark, where a tree may stand in the instance.
fn begin_walk(alloc: Global, inst: &Instance) -> Result<Option<ProgramWalk>, AllocError>
    requires { IsSound (space inst.now) }
    ensures { IfOk result (WalksWhereOneMay (space inst.entry.now) []) }
{
    let parts = find_partitions(alloc, inst)?;
    let (columns, rows) = size(inst, &parts);
    if !may_have_tree(inst, columns, rows) {
        return Ok(None);
    }
    let Compiled {
        program,
        counts: _counts,
    } = compile(alloc, inst, &parts)?;
    let walk = Walk::new(alloc, &program)?;
    Ok(Some(ProgramWalk { program, walk }))
}

// Takes the next mark, where there is a walk.
fn feed_walk(alloc: Global, walk: &mut Option<ProgramWalk>, mark: &Mark) -> Result<(), AllocError>
    requires { (s : Space) × (marks : List Mark) × WalksWhereOneMay s marks walk.old × (length marks < 2 ^ 63) }
    ensures { OnOk result ((s : Space) (marks : List Mark) → WalksWhereOneMay s marks walk.old
        → WalksWhereOneMay s (marks ++ mark.now ∷ []) walk.new) }
{
    match walk {
        Some(over) => {
            over.walk.feed(alloc, &over.program, mark)?;
            Ok(())
        }
        None => Ok(()),
    }
}

// What was seen of a tree by a walk, of whose marks so many are counted.
fn seen_by(over: ProgramWalk, nodes: u64) -> Seen
    ensures { (s : Space) (marks : List Mark) → WalksProgram s marks over → nodes ≡ nodes_in marks
        → Tells s (certificates.Tree marks) result }
{
    let ProgramWalk {
        program: _program,
        walk,
    } = over;
    Seen::Tree {
        answer: walk.end(),
        nodes,
    }
}

/// A walk over the marks of a tree that is told for an instance, which is fed them in order. It keeps no mark. Where no tree may
/// stand in the instance, it only counts them.
#[derive(Drop)]
pub struct TreeWalk {
    fed: u64,
    nodes: u64,
    walk: Option<ProgramWalk>,
}

impl TreeWalk {
    /// The walk before the first mark, over the integer program of the instance. Its only error is want of memory.
    pub fn new(alloc: Global, inst: &Instance) -> Result<TreeWalk, AllocError>
        requires { IsSound (space inst.now) }
        ensures walks { IfOk result (WalksTree (space inst.entry.now) []) }
        ensures none { IfOk result (λ w. w.fed ≡ 0) }
    {
        Ok(TreeWalk {
            fed: 0,
            nodes: 0,
            walk: begin_walk(alloc, inst)?,
        })
    }

    /// Takes the next mark. Its only error is want of memory, and then the walk is not to be used further.
    pub fn feed(&mut self, alloc: Global, mark: &Mark) -> Result<(), AllocError>
        requires walks { (s : Space) × (marks : List Mark) × WalksTree s marks self.old }
        requires room { self.old.fed < 2 ^ 63 }
        ensures walks { OnOk result ((s : Space) (marks : List Mark) → WalksTree s marks self.old
            → WalksTree s (marks ++ mark.now ∷ []) self.new) }
        ensures fed { OnOk result (self.new.fed ≡ self.old.fed + 1) }
    {
        feed_walk(alloc, &mut self.walk, mark)?;
        self.fed += 1;
        self.nodes += count_nodes(std::slice::from_ref(mark));
        Ok(())
    }

    /// What was seen of the tree of the marks that were fed.
    pub fn end(self) -> Seen
        ensures { (s : Space) (marks : List Mark) → WalksTree s marks self → Tells s (certificates.Tree marks) result }
    {
        let TreeWalk {
            fed: _fed,
            nodes,
            walk,
        } = self;
        match walk {
            Some(over) => seen_by(over, nodes),
            None => Seen::Tree {
                answer: Err(TreeFault::Bad {
                    node: 0,
                    why: TreeWhy::Kind,
                }),
                nodes,
            },
        }
    }
}

// What is seen of a tree for the instance, which has these marks.
fn see_tree(alloc: Global, inst: &Instance, marks: &[Mark]) -> Result<Seen, AllocError>
    requires { IsSound (space inst.now) }
    ensures { IfOk result (Tells (space inst.entry.now) (certificates.Tree marks.now)) }
{
    let mut walk = TreeWalk::new(alloc, inst)?;
    for mark in marks {
        walk.feed(alloc, mark)?;
    }
    Ok(walk.end())
}

/// What is seen of a certificate for the instance. Its only error is want of memory.
pub(crate) fn see(
    alloc: Global,
    inst: &Instance,
    certificate: &Certificate,
) -> Result<Seen, AllocError>
    requires { IsSound (space inst.now) }
    ensures { IfOk result (Tells (space inst.entry.now) certificate.now) }
{
    match certificate {
        Certificate::Tops { columns, rows } => Ok(Seen::Tops {
            columns: *columns,
            rows: *rows,
        }),
        Certificate::Tree(marks) => see_tree(alloc, inst, marks.as_slice()),
    }
}
