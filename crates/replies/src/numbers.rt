// The two numbers of what each call accepts.
ghost use Rattle.std.specs.Prelude.{◌≡◌, ℕ};
ghost use Rattle.meaning.specs.Answer.{Answer, accepted, Comparison as Told, TableSize as TableTold, GraphSize as GraphTold};
ghost use Rattle.calls.specs.Paper.{comparison_of, size_of as table_size_of};
ghost use Rattle.listing_calls.specs.Paper.{size_of as graph_size_of};
ghost use Rattle.replies.specs.Coded.{text_value, pair_value, done_value, table_value, graph_value};

use calls::TableSize;
use listing_calls::GraphSize;
use pairs::Comparison;

/// An accepted answer that two numbers tell beside the result 0.
pub trait Numbers {
    // What is accepted, in document 01's words.
    ghost Paper: { Type 0 };

    ghost paper: { Self → Paper };

    // What two numbers beside the result 0 say.
    ghost value: { ℕ → ℕ → Answer Paper };

    /// The two numbers.
    fn numbers(self) -> (u64, u64)
        ensures { value result.0 result.1 ≡ accepted (paper self) };
}

// In each impl below, `as`: std has no `From` of a usize for u64.

/// The bytes written, the row's numbers, the nodes of a plot, a held tree's number, or how many neighbours are listed; and 0.
impl Numbers for usize {
    ghost Paper = { ℕ };

    ghost paper = { λ n. n };

    ghost value = { text_value };

    fn numbers(self) -> (u64, u64) {
        (self as u64, 0)
    }
}

/// 1 for yes or 0 for no, and how many forests were compared.
impl Numbers for Comparison {
    ghost Paper = { Told };

    ghost paper = { comparison_of };

    ghost value = { pair_value };

    fn numbers(self) -> (u64, u64) {
        (u64::from(self.yes), self.forests as u64)
    }
}

/// The bytes written, and the trees.
impl Numbers for TableSize {
    ghost Paper = { TableTold };

    ghost paper = { table_size_of };

    ghost value = { table_value };

    fn numbers(self) -> (u64, u64) {
        (self.bytes as u64, self.trees as u64)
    }
}

/// The trees, and the pairs.
impl Numbers for GraphSize {
    ghost Paper = { GraphTold };

    ghost paper = { graph_size_of };

    ghost value = { graph_value };

    fn numbers(self) -> (u64, u64) {
        (self.trees as u64, self.pairs as u64)
    }
}

/// 0 and 0: there is no more to say.
impl Numbers for () {
    ghost Paper = { Unit {0} };

    ghost paper = { λ u. u };

    ghost value = { done_value };

    fn numbers(self) -> (u64, u64) {
        (0, 0)
    }
}
