// Command lines after the program's name, with `|` between the words, and what they ask for: what `clap` 4 in Rust
// makes of them with the same options. `clap` had no version there; the results for `--version` and `-V` are this
// project's.

// Lines that ask for a command, and the command.
pub(super) const COMMANDS: [(&str, &str); 46] = [
    ("show|a", "show [a]"),
    ("show|-", "show [-]"),
    ("check|a", "check [a]"),
    ("canon|a", "canon 1 [a]"),
    ("canon|-", "canon 1 [-]"),
    ("compare|a|b", "compare [a] [b]"),
    ("compare|-|-", "compare [-] [-]"),
    ("compare|-|b", "compare [-] [b]"),
    ("show|help", "show [help]"),
    ("canon|show", "canon 1 [show]"),
    ("compare|help|help", "compare [help] [help]"),
    ("show|a b", "show [a b]"),
    ("show|ü.gr", "show [ü.gr]"),
    ("show|a=b", "show [a=b]"),
    ("canon|./-x", "canon 1 [./-x]"),
    ("show|--|-x", "show [-x]"),
    ("show|--|--", "show [--]"),
    ("show|--|-", "show [-]"),
    ("compare|--|-a|-b", "compare [-a] [-b]"),
    ("compare|a|--|-b", "compare [a] [-b]"),
    ("compare|-|--|-", "compare [-] [-]"),
    ("show|a|--", "show [a]"),
    ("show|--|--help", "show [--help]"),
    ("show|--|-h", "show [-h]"),
    ("show|", "show []"),
    ("canon|", "canon 1 []"),
    ("compare||", "compare [] []"),
    ("compare|a|", "compare [a] []"),
    ("check|a|--with|", "check [a] []"),
    ("check|a|--with=", "check [a] []"),
    ("check|a|--with|b", "check [a] [b]"),
    ("check|--with|b|a", "check [a] [b]"),
    ("check|--with=b|a", "check [a] [b]"),
    ("check|a|--with|-", "check [a] [-]"),
    ("check|-|--with|-", "check [-] [-]"),
    ("check|a|--with=--", "check [a] [--]"),
    ("check|a|--with=-x", "check [a] [-x]"),
    ("check|a|--with=b=c", "check [a] [b=c]"),
    ("check|--with|b|--|-a", "check [-a] [b]"),
    ("canon|--form|1|a", "canon 1 [a]"),
    ("canon|--form|2|a", "canon 2 [a]"),
    ("canon|a|--form|2", "canon 2 [a]"),
    ("canon|--form=2|a", "canon 2 [a]"),
    ("canon|--form=1|-", "canon 1 [-]"),
    ("canon|--form|2|--|-a", "canon 2 [-a]"),
    ("show|@a", "show [@a]"),
];

// Lines that ask for nothing, with `;` between them.
pub(super) const BAD: &str = "\
    show|-x;show|--x;show|--with;compare|--|a;show|--;show|-1;show|-1.5;check|-1|--with|-2;show|--|a|b;\
    show|a|--|b;--|show|a;--;--|--|show;;|show|a;canon|--form||a;canon|--form=|a;show|a|;check|--with|a;\
    check|a|--with;check|a|--with|b|--with|c;check|a|--with|--|b;check|a|--with|-x;check|a|--wit|b;\
    check|a|-with|b;show|a|--with|b;--with|b|check|a;check|--with|--with|a;check|a|--with|--form;\
    check|a|--WITH|b;check|--|a|--with|b;check|a|b;canon|--form|3|a;canon|--form|01|a;canon|--form|+1|a;\
    canon|--form| 1|a;canon|--form|1;canon|--form;canon|a|--form;canon|--form|1|--form|2|a;\
    canon|--form|1|--form|1|a;canon|-form|1|a;canon|-f|1|a;canon|--form=1=2|a;canon|--form2|a;\
    show|--form|1|a;--form|1|canon|a;canon|--form|-1|a;canon|--form|one|a;canon|--form|2|a|b;help|nothing;\
    help|show|a;help|help|help;help|show|show;check|a|--with|--help;check|a|--with|-h;canon|--form|3|-h;\
    canon|--form|-h;-xh;--help=1;nothing|--help;help|--help;help|-h;help|show|--help;help|--|show;help|;\
    --hel;-H;help|help|show;compare|a|b|c|--help;show|--with|--help;show|help|x;version;show|--version;\
    show|-V;Show|a;sho|a;nothing;nothing|a;-;-x;--x;show;check;canon;compare;compare|a;compare|a|b|c;\
    show|a|b;show|a|-x;show|a|--x;a;-|a;show|show|a;canon|canon|a;@args;help|2|check;--form=2";

// Lines that ask for help.
pub(super) const HELP: &str = "\
    --help;-h;help;help|show;help|check;help|canon;help|compare;help|help;show|--help;show|-h;check|--help;\
    canon|-h;compare|--help;show|a|--help;show|a|-h;check|--with|b|-h;canon|-h|--form|3;--help|nothing;-hh;\
    -hx;show|-hx;--help|show;-h|show|a;compare|a|b|--help";

// Lines that ask for the version.
pub(super) const VERSION: &str = "--version;-V";
