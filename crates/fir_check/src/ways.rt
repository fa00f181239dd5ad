//! Ways over instances from one module to another.
ghost use Rattle.std.specs.Prelude.{◌≡◌, ◌<◌, nat_lt, true, length, OnOk, IfOk};
ghost use Rattle.std.specs.List.{list_all};
ghost use Rattle.fir_check.specs.Instances.{kids_seen, leads_so, spread, visit, Within};

use crate::instances::Instance;
use std::alloc::Global;
use tb_base::Memory;

/// Finds a module, unless it has its mark.
fn visit(target: usize, marks: &mut [bool], found: &mut Vec<usize>) -> Result<(), Memory>
    requires { target < length marks.old }
    ensures marks { OnOk result (marks.new ≡ (visit target (marks.old, found.old.items)).0) }
    ensures found { OnOk result (found.new.items ≡ (visit target (marks.old, found.old.items)).1) }
{
    if marks[target] {
        return Ok(());
    }
    marks[target] = true;
    found.push(target)?;
    Ok(())
}

/// Finds the modules of instances.
fn visit_all(
    instances: &[Instance],
    marks: &mut [bool],
    found: &mut Vec<usize>,
) -> Result<(), Memory>
    requires { list_all (λ i. nat_lt i.target (length marks.old)) instances.now ≡ true }
    ensures marks { OnOk result (marks.new ≡ (spread instances.now (marks.old, found.old.items)).0) }
    ensures found { OnOk result (found.new.items ≡ (spread instances.now (marks.old, found.old.items)).1) }
{
    for instance in instances {
        visit(instance.target, marks, found)?;
    }
    Ok(())
}

/// Whether a way over instances leads from one module to another; from each to itself one does. The
/// time is linear in the number of modules and instances.
pub fn leads(alloc: Global, kids: &[Vec<Instance>], from: usize, to: usize) -> Result<bool, Memory>
    requires within { Within (length kids.now) (kids_seen kids.now) }
    requires start { from < length kids.now }
    ensures { IfOk result (λ b. leads_so b (kids_seen kids.now) from to) }
{
    let mut marks = vec![in alloc; false; kids.len()]?;
    let mut found = Vec::new(alloc);
    visit(from, &mut marks, &mut found)?;
    let mut next = 0;
    while next < found.len() {
        let here = found[next];
        if here == to {
            return Ok(true);
        }
        visit_all(&kids[here], &mut marks, &mut found)?;
        next += 1;
    }
    Ok(false)
}
