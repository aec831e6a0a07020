// The source of a generated program.
ghost use Rattle.std.specs.Prelude.{◌≡◌, ◌≤◌, ◌<◌, ◌∷◌, [], IfOk, IsTrue, true, false, codes, map, pos, suc};
ghost use Rattle.htl_base.specs.declared.Ty.TheVariants as ty;
ghost use Rattle.htl_text.specs.declared.tree.ConstNode.TheVariants as const;
ghost use Rattle.htl_text.specs.declared.tree.EndNode.TheVariants as end;
ghost use Rattle.htl_base.specs.Names.{is_name};
ghost use Rattle.htl_model.specs.Lists.{list_to};
ghost use Rattle.htl_text.specs.Nodes.{tree_of, module_of, mode_of, task_of, out_of};
ghost use Rattle.htl_bulk.specs.BulkTree.{named as id_named, number as num_of, comm_named, module_named, int_named, bulk_sensor, bulk_comm, scaled_sum, is_numbered, digits, copied, int_task, scaling_task, copying_task, one_before, instance_of, scaling_invoke, copying_invoke, bulk_mode, bulk_module, bulk_tree, bulk_bytes};

use htl_base::{BinOp, Memory, Name, Seq, Ty, Value};
use htl_text::{
    CommNode, ConstNode, EndNode, Expression, Id, InvokeNode, ModeNode, ModuleNode, Node, Num,
    OutNode, OutNodes, ParamNode, ProgramNode, TaskNode, Tree, print,
};
use std::alloc::{AllocError, Global};

/// The source of a generated program with `n` modules, 1 to 64, in the printed form. It has a sensor, and a communicator for each
/// module. In each round of 1,000 ticks the first task of a module multiplies the sensor's value and adds the communicator of the
/// module before, and the second hands the sum, which it reads by a port, to the module's own communicator. Memory comes only
/// where no memory was left. The cost is linear in `n`.
pub fn bulk_source(alloc: Global, n: u32) -> Result<Vec<u8>, Memory>
    requires some { 1 ≤ n }
    requires few { n ≤ 64 }
    ensures { IfOk result (λ bytes. bytes.items ≡ bulk_bytes n) }
{
    match tree(alloc, n) {
        Ok(tree) => print(alloc, &tree),
        Err(_) => Err(Memory),
    }
}

// The program's tree.
fn tree(alloc: Global, n: u32) -> Result<Tree, AllocError>
    requires some { 1 ≤ n }
    requires few { n ≤ 64 }
    ensures { IfOk result (λ t. tree_of t ≡ bulk_tree n) }
{
    let program = ProgramNode {
        name: named(b"Bulk"),
        comms: comms(alloc, n)?,
        modules: modules(alloc, n)?,
    };
    Ok(Tree {
        programs: Seq::new(vec![in alloc; program]?),
    })
}

// The sensor, and a communicator for each module.
fn comms(alloc: Global, n: u32) -> Result<Seq<CommNode>, AllocError>
    requires few { n ≤ 64 }
    ensures { IfOk result (λ s. s ≡ bulk_sensor ∷ list_to bulk_comm n) }
{
    let mut comms = vec![in alloc; int_comm(true, named(b"s"), 10, 0)]?;
    for k in 0..n {
        comms.push(int_comm(false, comm_named(k), 100, value_of(k)))?;
    }
    Ok(Seq::new(comms))
}

// A communicator or a sensor of type int.
fn int_comm(sensor: bool, name: Id, period: Value, init: Value) -> CommNode
    ensures { result ≡ record { sensor = sensor; ty = ty.Int; name = name; period = num_of period; init = const.Int 0 false init } }
{
    CommNode {
        sensor,
        ty: Ty::Int,
        name,
        period: number(period),
        init: ConstNode::Int {
            token: 0,
            minus: false,
            x: init,
        },
    }
}

// The modules.
fn modules(alloc: Global, n: u32) -> Result<Seq<ModuleNode>, AllocError>
    requires few { n ≤ 64 }
    ensures { IfOk result (λ s. map module_of s ≡ list_to (bulk_module n) n) }
{
    let mut modules = Vec::new(alloc);
    for k in 0..n {
        modules.push(module(alloc, n, k)?)?;
    }
    Ok(Seq::new(modules))
}

// Module k of n.
fn module(alloc: Global, n: u32, k: u32) -> Result<ModuleNode, AllocError>
    requires k { k < n }
    requires few { n ≤ 64 }
    ensures { IfOk result (λ m. module_of m ≡ bulk_module n k) }
{
    let tasks = vec![in alloc; scaling_task(alloc, k)?, copying_task(alloc)?]?;
    let modes = vec![in alloc; mode(alloc, n, k)?]?;
    Ok(ModuleNode {
        name: module_named(k),
        start: named(b"m"),
        tasks: Seq::new(tasks),
        modes: Seq::new(modes),
    })
}

// The task that multiplies and adds.
fn scaling_task(alloc: Global, k: u32) -> Result<TaskNode, AllocError>
    requires { k < 64 }
    ensures { IfOk result (λ t. task_of t ≡ scaling_task k) }
{
    let inputs = vec![in alloc; int_named(b"x"), int_named(b"y")]?;
    let sum = OutNode {
        param: int_named(b"z"),
        first: 0,
        value: scaled_sum(alloc, k)?,
    };
    int_task(alloc, named(b"a"), inputs, sum)
}

// The task that hands on.
fn copying_task(alloc: Global) -> Result<TaskNode, AllocError>
    ensures { IfOk result (λ t. task_of t ≡ copying_task) }
{
    let inputs = vec![in alloc; int_named(b"x")]?;
    let copy = OutNode {
        param: int_named(b"y"),
        first: 0,
        value: copied(alloc)?,
    };
    int_task(alloc, named(b"b"), inputs, copy)
}

// A task with one output, and a worst case of 5 ticks.
fn int_task(
    alloc: Global,
    name: Id,
    inputs: Vec<ParamNode>,
    out: OutNode,
) -> Result<TaskNode, AllocError>
    ensures { IfOk result (λ t. task_of t ≡ int_task name inputs.items (out_of out)) }
{
    Ok(TaskNode {
        name,
        inputs: Seq::new(inputs),
        outputs: OutNodes::Concrete {
            outs: Seq::new(vec![in alloc; out]?),
        },
        worst: number(5),
    })
}

// `x * (k + 1) + y`
fn scaled_sum(alloc: Global, k: u32) -> Result<Expression, AllocError>
    requires { k < 64 }
    ensures { IfOk result (λ e. e ≡ scaled_sum k) }
{
    let nodes = vec![in alloc;
        Node::Named { id: named(b"x") },
        Node::Int {
            token: 0,
            x: value_of(k + 1)
        },
        Node::Binary {
            token: 0,
            op: BinOp::Mul,
            right: 1
        },
        Node::Named { id: named(b"y") },
        Node::Binary {
            token: 0,
            op: BinOp::Add,
            right: 1
        },
    ]?;
    Ok(Expression::new(nodes))
}

// `x`
fn copied(alloc: Global) -> Result<Expression, AllocError>
    ensures { IfOk result (λ e. e ≡ copied) }
{
    let nodes = vec![in alloc; Node::Named { id: named(b"x") }]?;
    Ok(Expression::new(nodes))
}

// The mode of module k of n.
fn mode(alloc: Global, n: u32, k: u32) -> Result<ModeNode, AllocError>
    requires k { k < n }
    requires few { n ≤ 64 }
    ensures { IfOk result (λ m. mode_of m ≡ bulk_mode n k) }
{
    let ports = vec![in alloc; int_named(b"p")]?;
    let invokes = invokes(alloc, n, k)?;
    Ok(ModeNode {
        name: named(b"m"),
        period: number(1000),
        program: None,
        ports: Seq::new(ports),
        invokes: Seq::new(invokes),
        switches: Seq::new(Vec::new(alloc)),
    })
}

// The invocations of module k of n.
fn invokes(alloc: Global, n: u32, k: u32) -> Result<Vec<InvokeNode>, AllocError>
    requires k { k < n }
    requires few { n ≤ 64 }
    ensures { IfOk result (λ v. v.items ≡ scaling_invoke n k ∷ copying_invoke k ∷ []) }
{
    let scaling = scaling_invoke(alloc, n, k)?;
    let copying = copying_invoke(alloc, k)?;
    Ok(vec![in alloc; scaling, copying]?)
}

// The number of the module before module k of n.
fn one_before(n: u32, k: u32) -> u32
    requires { k < n }
    ensures { result ≡ one_before n k }
{
    if k == 0 { n - 1 } else { k - 1 }
}

// What the scaling task reads, and its port.
fn scaling_invoke(alloc: Global, n: u32, k: u32) -> Result<InvokeNode, AllocError>
    requires k { k < n }
    requires few { n ≤ 64 }
    ensures { IfOk result (λ i. i ≡ scaling_invoke n k) }
{
    let before = one_before(n, k);
    Ok(InvokeNode {
        task: named(b"a"),
        reads: Seq::new(vec![in alloc; instance(named(b"s"), 0), instance(comm_named(before), 0)]?),
        writes: Seq::new(vec![in alloc; EndNode::Port { port: named(b"p") }]?),
        parent: None,
    })
}

// The port that the copying task reads, and what it writes.
fn copying_invoke(alloc: Global, k: u32) -> Result<InvokeNode, AllocError>
    requires { k < 64 }
    ensures { IfOk result (λ i. i ≡ copying_invoke k) }
{
    Ok(InvokeNode {
        task: named(b"b"),
        reads: Seq::new(vec![in alloc; EndNode::Port { port: named(b"p") }]?),
        writes: Seq::new(vec![in alloc; instance(comm_named(k), 10)]?),
        parent: None,
    })
}

// An instance of a communicator.
fn instance(comm: Id, n: Value) -> EndNode
    ensures { result ≡ end.Comm comm (num_of n) }
{
    EndNode::Comm {
        comm,
        instance: number(n),
    }
}

// A parameter of type int.
fn int_named(name: &[u8]) -> ParamNode
    requires { IsTrue (is_name name.now) }
    ensures { result ≡ int_named name.now }
{
    ParamNode {
        ty: Ty::Int,
        name: named(name),
    }
}

// A small number as a value.
fn value_of(k: u32) -> Value
    ensures { result ≡ pos k }
{
    k as Value
}

// A number that stands at no token.
fn number(x: Value) -> Num
    ensures { result ≡ num_of x }
{
    Num { x, token: 0 }
}

// A name that stands at no token.
fn named(name: &[u8]) -> Id
    requires { IsTrue (is_name name.now) }
    ensures { result ≡ id_named name.now }
{
    Id {
        name: Name::from_known(name),
        token: 0,
    }
}

// The name of communicator k.
fn comm_named(k: u32) -> Id
    requires { k < 64 }
    ensures { result ≡ comm_named k }
{
    numbered(b'c', k)
}

// The name of module k.
fn module_named(k: u32) -> Id
    requires { k < 64 }
    ensures { result ≡ module_named k }
{
    numbered(b'M', k)
}

// A letter and a number of one digit or two.
fn numbered(letter: u8, k: u32) -> Id
    requires letter { is_numbered letter ≡ true }
    requires k { k < 64 }
    ensures { result ≡ id_named (letter ∷ digits k) }
{
    let (tens, ones) = (b'0' + (k / 10) as u8, b'0' + (k % 10) as u8);
    if k < 10 {
        named(&[letter, ones])
    } else {
        named(&[letter, tens, ones])
    }
}
