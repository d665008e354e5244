// The picture of one track, as theorems. `cases/draw/pictures.txt` has whole pictures.
ghost use Rattle.std.specs.Prelude.{◌≡◌, [], ◌∷◌, codes};
ghost use Rattle.plan_core.specs.Examples.{point_at};
ghost use Rattle.plan_text.specs.SvgText.{escaped, label_begin, picture_begin, polyline};

// The picture piece by piece. The function has no code: what it ensures are theorems about the definitions.
fn picture_of_one_track()
    ensures extent { picture_begin 1 0 ≡ codes "<svg xmlns=\"http://www.w3.org/2000/svg\" viewBox=\"0 0 80 40\">\n" }
    ensures track { polyline 0 (point_at 0 0 ∷ point_at 1 0 ∷ []) ≡ codes
        "<polyline points=\"20,20 60,20\" fill=\"none\" stroke=\"black\"/>\n" }
    ensures west_name { label_begin 0 (point_at 0 0) ≡ codes "<text x=\"20\" y=\"14\">" }
    ensures east_name { label_begin 0 (point_at 1 0) ≡ codes "<text x=\"60\" y=\"14\">" }
    ensures row_below { label_begin 2 (point_at 1 0) ≡ codes "<text x=\"60\" y=\"94\">" }
    ensures name { escaped (codes "a<b>&c") ≡ codes "a&lt;b&gt;&amp;c" }
{}

#[test]
fn the_picture_is_as_the_definitions_say(_rt: HostRuntime) {
    picture_of_one_track();
}
