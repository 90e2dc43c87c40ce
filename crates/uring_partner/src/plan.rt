//! Which of the next enters fail by plan.

ghost use Rattle.std.specs.Prelude.{◌≡◌, ◌↔◌, Contains, IsTrue};
ghost use Rattle.partner_traits.specs.Calls.{later_plan};

/// Passes one enter, and says whether it fails.
pub fn pass_enter(plan: &mut Vec<u64>) -> bool
    ensures fails { IsTrue result ↔ Contains plan.old.items 1 }
    ensures later { plan.new.items ≡ later_plan plan.old.items }
{
    let fails = plan.as_slice().contains(&1);
    plan.retain(|k| *k > 1);
    for k in plan.iter_mut() {
        *k = k.saturating_sub(1);
    }
    fails
}
