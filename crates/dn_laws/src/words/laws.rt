// What `clap`'s definitions say of the usual command lines, stated without them: which words name texts, and what the
// options mean.
ghost use Rattle.std.specs.Prelude.{◌≡◌, ◌⊎◌, ◌++◌, ◌∷◌, [], List, None, Some, codes, true, ℕ};
ghost use Rattle.dn_arc_theory.specs.declared.arc.Form.TheVariants.{One, Two};
ghost use Rattle.dn_command.specs.Commands.{Canon, Check, Compare, Show, is_name};
ghost use Rattle.dn_command.specs.Requests.{IsReadByClap};
ghost use Rattle.dn_command.specs.State.RequestKinds.{Requests};
ghost use Rattle.dn_command.specs.declared.request.Request.{Request};
ghost use Rattle.dn_command.specs.declared.request.Request.TheVariants.{Memory};

/// `clap` would read the plain forms, except the line without words, as the commands that they are.
pub fn plain_forms()
    ensures show { (program name : List ℕ) (r : Request) → is_name name ≡ true
        → IsReadByClap (program ∷ codes "show" ∷ name ∷ []) r → Requests (Show name) r ⊎ (r ≡ Memory) }
    ensures check { (program name : List ℕ) (r : Request) → is_name name ≡ true
        → IsReadByClap (program ∷ codes "check" ∷ name ∷ []) r → Requests (Check name None) r ⊎ (r ≡ Memory) }
    ensures canon { (program name : List ℕ) (r : Request) → is_name name ≡ true
        → IsReadByClap (program ∷ codes "canon" ∷ name ∷ []) r → Requests (Canon name One) r ⊎ (r ≡ Memory) }
    ensures compare { (program left right : List ℕ) (r : Request) → is_name left ≡ true → is_name right ≡ true
        → IsReadByClap (program ∷ codes "compare" ∷ left ∷ right ∷ []) r
        → Requests (Compare left right) r ⊎ (r ≡ Memory) }
{}

/// `check NAME --with COMPANION`, `check --with COMPANION NAME` and `check NAME --with=COMPANION` check NAME with
/// COMPANION. In the last one, COMPANION can be any name.
pub fn companions()
    ensures after { (program name companion : List ℕ) (r : Request) → is_name name ≡ true → is_name companion ≡ true
        → IsReadByClap (program ∷ codes "check" ∷ name ∷ codes "--with" ∷ companion ∷ []) r
        → Requests (Check name (Some companion)) r ⊎ (r ≡ Memory) }
    ensures before { (program name companion : List ℕ) (r : Request) → is_name name ≡ true → is_name companion ≡ true
        → IsReadByClap (program ∷ codes "check" ∷ codes "--with" ∷ companion ∷ name ∷ []) r
        → Requests (Check name (Some companion)) r ⊎ (r ≡ Memory) }
    ensures equals { (program name companion : List ℕ) (r : Request) → is_name name ≡ true
        → IsReadByClap (program ∷ codes "check" ∷ name ∷ (codes "--with=" ++ companion) ∷ []) r
        → Requests (Check name (Some companion)) r ⊎ (r ≡ Memory) }
{}

/// `canon --form 1 NAME` asks for form 1; `canon --form 2 NAME` and `canon NAME --form=2` ask for form 2.
pub fn forms()
    ensures one { (program name : List ℕ) (r : Request) → is_name name ≡ true
        → IsReadByClap (program ∷ codes "canon" ∷ codes "--form" ∷ codes "1" ∷ name ∷ []) r
        → Requests (Canon name One) r ⊎ (r ≡ Memory) }
    ensures two { (program name : List ℕ) (r : Request) → is_name name ≡ true
        → IsReadByClap (program ∷ codes "canon" ∷ codes "--form" ∷ codes "2" ∷ name ∷ []) r
        → Requests (Canon name Two) r ⊎ (r ≡ Memory) }
    ensures after { (program name : List ℕ) (r : Request) → is_name name ≡ true
        → IsReadByClap (program ∷ codes "canon" ∷ name ∷ codes "--form=2" ∷ []) r
        → Requests (Canon name Two) r ⊎ (r ≡ Memory) }
{}

/// Any words after `--` name texts, including empty ones and those that begin with `-`.
pub fn any_names()
    ensures show { (program name : List ℕ) (r : Request)
        → IsReadByClap (program ∷ codes "show" ∷ codes "--" ∷ name ∷ []) r
        → Requests (Show name) r ⊎ (r ≡ Memory) }
    ensures check { (program name : List ℕ) (r : Request)
        → IsReadByClap (program ∷ codes "check" ∷ codes "--" ∷ name ∷ []) r
        → Requests (Check name None) r ⊎ (r ≡ Memory) }
    ensures canon { (program name : List ℕ) (r : Request)
        → IsReadByClap (program ∷ codes "canon" ∷ codes "--" ∷ name ∷ []) r
        → Requests (Canon name One) r ⊎ (r ≡ Memory) }
    ensures compare { (program left right : List ℕ) (r : Request)
        → IsReadByClap (program ∷ codes "compare" ∷ codes "--" ∷ left ∷ right ∷ []) r
        → Requests (Compare left right) r ⊎ (r ≡ Memory) }
{}
