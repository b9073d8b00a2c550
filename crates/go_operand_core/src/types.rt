//! Operands, and what is asked of types.
ghost use Rattle.std.specs.Prelude.{◌≡◌, IfOk};

use go_constant_core::Constant;
use go_term_core::Basic;
use std::alloc::{AllocError, Global};

/// What type a value has, over handles of types.
///
/// The Go specification, "Constants" and "Comparison operators": constants and the results of comparisons may be untyped; "Predeclared
/// identifiers": `nil` has no type.
#[derive(Drop)]
pub enum ValueType<T> {
    Typed(T),
    UntypedInt,
    UntypedText,
    UntypedBool,
    Nil,
}

/// A single value: its type, its value where it is constant, and whether it is addressable.
///
/// The Go specification, "Operands", "Constant expressions", "Address operators".
#[derive(Drop)]
pub struct Operand<T> {
    pub value_type: ValueType<T>,
    pub constant: Option<Constant>,
    pub addressable: bool,
}

/// What lies under a type.
///
/// The Go specification, "Underlying types".
#[derive(Drop)]
pub enum TypeForm<T> {
    /// No type: what follows from a fault in a type declaration.
    Nothing,
    Basic(Basic),
    /// A pointer to this.
    Pointer(T),
    Struct,
    Interface,
}

/// What is asked of types. A type is a handle, which a call makes once more where a second one is needed.
pub trait TypeLooks {
    ghost use Rattle.std.specs.Prelude.{◌≡◌, IfOk};
    ghost use Rattle.go_operand_core.specs.TypeRules.{TypeRules};

    type Type: Drop;

    // the answers to all that is asked
    ghost types: { Self → TypeRules Self.Type };

    /// The same handle once more. It takes no memory.
    fn again(&self, t: &Self::Type) -> Self::Type
        ensures { result ≡ t.now };

    /// What lies under a type.
    fn form(&self, t: &Self::Type) -> TypeForm<Self::Type>
        ensures { result ≡ (types self.now).form t.now };

    /// The type of pointers to a type.
    ///
    /// # Errors
    ///
    /// `AllocError` where memory is wanting.
    fn pointer_to(&self, alloc: Global, t: &Self::Type) -> Result<Self::Type, AllocError>
        ensures { IfOk result (λ p. p ≡ (types self.now).pointer_to t.now) };

    /// The predeclared type `int`.
    fn int(&self) -> Self::Type
        ensures { result ≡ (types self.now).int };

    /// The predeclared type `string`.
    fn string(&self) -> Self::Type
        ensures { result ≡ (types self.now).string };

    /// The predeclared type `bool`.
    fn bool(&self) -> Self::Type
        ensures { result ≡ (types self.now).bool };

    /// The predeclared type `any`.
    fn any(&self) -> Self::Type
        ensures { result ≡ (types self.now).any };

    /// Whether two types are identical.
    ///
    /// The Go specification, "Type identity".
    fn identical(&self, a: &Self::Type, b: &Self::Type) -> bool
        ensures { result ≡ (types self.now).identical a.now b.now };

    /// Whether a value of the first type is assignable to a variable of the second.
    ///
    /// The Go specification, "Assignability": a value of a type, interfaces that it implements included.
    ///
    /// # Errors
    ///
    /// `AllocError` where memory is wanting for a search among methods.
    fn assignable(
        &self,
        alloc: Global,
        value: &Self::Type,
        variable: &Self::Type,
    ) -> Result<bool, AllocError>
        ensures { IfOk result (λ b. b ≡ (types self.now).assignable value.now variable.now) };

    /// Whether a value of the first type is convertible to the second, where it is neither assignable to it nor an integer that
    /// becomes a string.
    ///
    /// The Go specification, "Conversions": the underlying types are identical apart from tags, or both types are pointer types that
    /// are not named, whose base types have such underlying types.
    fn convertible(&self, value: &Self::Type, to: &Self::Type) -> bool
        ensures { result ≡ (types self.now).convertible value.now to.now };
}
