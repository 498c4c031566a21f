// Worked command lines.
ghost use Rattle.std.specs.Prelude.{◌≡◌, ◌⊎◌, codes, [], ◌∷◌, Some, None, false, true};
ghost use Rattle.dn_arc_theory.specs.declared.arc.Form.TheVariants.{One, Two};
ghost use Rattle.dn_command.specs.Commands.{Canon, Check, Compare, Show, names_twice, plain_asked};
ghost use Rattle.dn_command.specs.Requests.{IsReadByClap};
ghost use Rattle.dn_command.specs.State.RequestKinds.{Prints, PrintsVersion};
ghost use Rattle.dn_command.specs.declared.request.Request.{Request};
ghost use Rattle.dn_command.specs.declared.request.Request.TheVariants.{Bad, Memory};

/// Plain forms of commands.
pub fn plain_forms()
    ensures no_words { (plain_asked [] ≡ Some (Canon (codes "-") One))
        × (plain_asked (codes "dnorm" ∷ []) ≡ Some (Canon (codes "-") One)) }
    ensures show { plain_asked (codes "dnorm" ∷ codes "show" ∷ codes "g.gr" ∷ []) ≡ Some (Show (codes "g.gr")) }
    ensures check { plain_asked (codes "dnorm" ∷ codes "check" ∷ codes "-" ∷ []) ≡ Some (Check (codes "-") None) }
    ensures canon { plain_asked (codes "dnorm" ∷ codes "canon" ∷ codes "./-x" ∷ []) ≡ Some (Canon (codes "./-x") One) }
    ensures compare { plain_asked (codes "dnorm" ∷ codes "compare" ∷ codes "a" ∷ codes "b" ∷ [])
        ≡ Some (Compare (codes "a") (codes "b")) }
{}

/// A word that names a command can also name a text.
pub fn command_names()
    ensures show { plain_asked (codes "dnorm" ∷ codes "show" ∷ codes "help" ∷ []) ≡ Some (Show (codes "help")) }
    ensures canon { plain_asked (codes "dnorm" ∷ codes "canon" ∷ codes "show" ∷ []) ≡ Some (Canon (codes "show") One) }
{}

/// Lines that are not plain forms.
pub fn other_lines()
    ensures no_file { plain_asked (codes "dnorm" ∷ codes "canon" ∷ []) ≡ None }
    ensures empty_file { plain_asked (codes "dnorm" ∷ codes "show" ∷ [] ∷ []) ≡ None }
    ensures option { plain_asked (codes "dnorm" ∷ codes "check" ∷ codes "-x" ∷ []) ≡ None }
    ensures two_files { plain_asked (codes "dnorm" ∷ codes "canon" ∷ codes "a" ∷ codes "b" ∷ []) ≡ None }
    ensures other { plain_asked (codes "dnorm" ∷ codes "Canon" ∷ codes "a" ∷ []) ≡ None }
{}

/// Commands that name standard input twice, and commands that do not.
pub fn standard_input()
    ensures compared { names_twice (Compare (codes "-") (codes "-")) ≡ true }
    ensures checked { names_twice (Check (codes "-") (Some (codes "-"))) ≡ true }
    ensures left { names_twice (Compare (codes "-") (codes "a")) ≡ false }
    ensures companion { names_twice (Check (codes "a") (Some (codes "-"))) ≡ false }
    ensures one { names_twice (Canon (codes "-") Two) ≡ false }
{}

/// Lines with a mistake: a missing file, an unknown option, an unknown form, a repeated option, and a word that is not
/// a command.
pub fn mistakes()
    ensures no_file { (r : Request) → IsReadByClap (codes "dnorm" ∷ codes "show" ∷ []) r → (r ≡ Bad) ⊎ (r ≡ Memory) }
    ensures option { (r : Request) → IsReadByClap (codes "dnorm" ∷ codes "show" ∷ codes "-x" ∷ []) r
        → (r ≡ Bad) ⊎ (r ≡ Memory) }
    ensures form { (r : Request) → IsReadByClap (codes "dnorm" ∷ codes "canon" ∷ codes "--form=3" ∷ codes "a" ∷ []) r
        → (r ≡ Bad) ⊎ (r ≡ Memory) }
    ensures twice { (r : Request) → IsReadByClap
        (codes "dnorm" ∷ codes "check" ∷ codes "a" ∷ codes "--with=b" ∷ codes "--with=b" ∷ []) r
        → (r ≡ Bad) ⊎ (r ≡ Memory) }
    ensures command { (r : Request) → IsReadByClap (codes "dnorm" ∷ codes "Show" ∷ codes "a" ∷ []) r
        → (r ≡ Bad) ⊎ (r ≡ Memory) }
{}

/// Calls for help. A call counts as soon as it is read, whatever follows it.
pub fn calls_for_help()
    ensures long { (r : Request) → IsReadByClap (codes "dnorm" ∷ codes "--help" ∷ []) r → Prints r ⊎ (r ≡ Memory) }
    ensures short { (r : Request) → IsReadByClap (codes "dnorm" ∷ codes "-h" ∷ []) r → Prints r ⊎ (r ≡ Memory) }
    ensures command { (r : Request) → IsReadByClap (codes "dnorm" ∷ codes "compare" ∷ codes "--help" ∷ []) r
        → Prints r ⊎ (r ≡ Memory) }
    ensures first { (r : Request) → IsReadByClap (codes "dnorm" ∷ codes "canon" ∷ codes "-h" ∷ codes "--form=3" ∷ []) r
        → Prints r ⊎ (r ≡ Memory) }
{}

/// Calls for the version.
pub fn calls_for_the_version()
    ensures long { (r : Request) → IsReadByClap (codes "dnorm" ∷ codes "--version" ∷ []) r
        → PrintsVersion r ⊎ (r ≡ Memory) }
    ensures short { (r : Request) → IsReadByClap (codes "dnorm" ∷ codes "-V" ∷ []) r → PrintsVersion r ⊎ (r ≡ Memory) }
{}
