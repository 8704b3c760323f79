// What was made before added to what a call made.
ghost use Rattle.std.specs.Prelude.{◌≡◌, ◌+◌, ◌≤◌};
ghost use Rattle.layout.specs.Layout.{most_contexts};

use crate::numbered::Numbered;

// The same context, where `made` others were made before.
pub fn after(numbered: Numbered, made: u32) -> Numbered
    requires { (numbered.made ≤ 1) × (made ≤ most_contexts) }
    ensures { result ≡ record numbered { made = made + numbered.made } }
{
    let all = made + numbered.made;
    Numbered {
        context: numbered.context,
        made: all,
    }
}
