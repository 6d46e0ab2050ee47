//! The tables of rules and of terms: the keys of their items, and what has to stand at each.

/// A key, what has to stand there, and the key beside it of which that speaks; and its line in an item
/// that is right, empty where that may lack it.
pub(crate) struct Key {
    pub(crate) name: &'static str,
    pub(crate) rule: &'static str,
    pub(crate) beside: &'static str,
    pub(crate) right: &'static str,
}

/// What a table of a kind has: the array of its items, the keys of an item, also as they are told; and
/// how a line begins, of the whole and of an item.
pub(crate) struct Form {
    pub(crate) array: &'static str,
    pub(crate) keys: &'static [Key],
    pub(crate) names: &'static str,
    pub(crate) whole: &'static str,
    pub(crate) item: &'static str,
}

macro_rules! keys {
    ($($name:literal $rule:literal $beside:literal $right:literal),* $(,)?) => {
        &[$(Key { name: $name, rule: $rule, beside: $beside, right: $right }),*]
    };
}

pub(crate) static RULES: Form = Form {
    array: "rule",
    keys: keys! {
        "series" "the name of a series or \"*\", in quotation marks" "" "series = \"*\"\n",
        "max" "an amount in quotation marks, such as \"12.99\"" "" "",
        "codes" "an array of two digits in quotation marks, such as [\"21\"]" ""
        "codes = [\"21\"]\n",
    },
    names: "series, max, codes",
    whole: "",
    item: "rule ",
};

pub(crate) static TERMS: Form = Form {
    array: "term",
    keys: keys! {
        "types" "an array of two digits in quotation marks, such as [\"02\"], none twice" ""
        "types = [\"02\"]\n",
        "codes" "an array of \"TT,CODE\": two digits, a comma and the code" "" "",
        "scheme" "a text beside codes, without needless spaces" "codes" "",
        "supplier" "\"TT,VALUE\": two digits, a comma and the value" "" "",
        "currency" "three letters A-Z in quotation marks" "" "",
        "net" "two digits in quotation marks that are none of its types" "types" "net = \"99\"\n",
        "percent" "0 to 100 in quotation marks, such as \"42.5\", or \"feed\"" ""
        "percent = \"0\"\n",
        "tax" "a percent in quotation marks, such as \"20\", or \"feed\"" "" "",
    },
    names: "types, codes, scheme, supplier, currency, net, percent, tax",
    whole: "not TOML: ",
    item: "bad term ",
};
