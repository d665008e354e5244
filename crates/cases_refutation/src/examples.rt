// Examples of the definitions as theorems. The functions have no code: what they ensure speaks of the
// log that is written out in specs/.
ghost use Rattle.std.specs.Prelude.{◌≡◌, ◌++◌, ◌∷◌, [], Some, None};
ghost use Rattle.plan_core.specs.declared.criterion.Criterion.TheVariants.{Height, Bends, Width};
ghost use Rattle.plan_core.specs.Examples.{measured};
ghost use Rattle.refute_log.specs.declared.line.LogLine.TheVariants.{Refuted};
ghost use Rattle.refute_log.specs.Log.{Derives};
ghost use Rattle.refute_log.specs.Bounds.{MeetsLog};
ghost use Rattle.refute_log.specs.Certified.{Certifies, CertifiesNone, Settled};
ghost use Rattle.refute_log.specs.Expected.{caps};
ghost use Rattle.cases_refutation.specs.Examples.{height_up_to, height_then_width, width_then_height, all_four};
ghost use Rattle.cases_refutation.specs.Examples.{short_log};

// What the short log certifies: a height of 1, and with it a width of 3.
fn certified()
    ensures derives { Derives short_log }
    ensures is_met { MeetsLog short_log (measured 1 0 0 3) }
    ensures height_then_width { Certifies (height_up_to 9) short_log height_then_width (measured 1 0 0 3) 2 }
    ensures zeros_need_no_line { Certifies (height_up_to 9) [] all_four (measured 0 0 0 0) 4 }
    ensures a_refuted_line_without_literals { CertifiesNone (short_log ++ Refuted [] ∷ []) }
{}

// What it lacks.
fn lacking()
    ensures the_width_where_it_comes_first { Certifies (height_up_to 9) short_log width_then_height (measured 1 0 0 3) 1
        → ⊥ }
    ensures a_greater_height { Certifies (height_up_to 9) short_log height_then_width (measured 2 0 0 3) 1 → ⊥ }
    ensures the_width_where_height_2_is_no_bound { Certifies (height_up_to 1) short_log height_then_width
        (measured 1 0 0 3) 2 → ⊥ }
    ensures that_there_is_no_drawing { CertifiesNone short_log → ⊥ }
{}

// To which depth values are settled, and how many bounds count.
fn counted()
    ensures below_the_whole_order { Settled (height_up_to 9) short_log height_then_width (Some (measured 1 0 0 3)) 1 }
    ensures without_a_drawing { Settled (height_up_to 9) short_log height_then_width None 0 }
    ensures each_bound { caps (height_up_to 9) short_log Height ≡ 2 }
    ensures at_most_the_greatest_value { caps (height_up_to 1) short_log Height ≡ 1 }
    ensures no_bound { caps (height_up_to 9) short_log Bends ≡ 0 }
    ensures of_another_criterion { caps (height_up_to 9) short_log Width ≡ 1 }
{}

#[test]
fn the_examples_are_as_the_definitions_say(_rt: HostRuntime) {
    certified();
    lacking();
    counted();
}
