// Copies of modules and of their parts.

use crate::{
    Actual, Block, Callee, Function, Inst, InstKind, MemTy, Module, Operand, Param, Signature,
    Symbol, TypeName,
};
use lists::Copies;
use std::alloc::AllocError;

impl Copies for Operand {
    fn copy(&self) -> Result<Self, AllocError> {
        match self {
            Operand::Local(id) => Ok(Operand::Local(*id)),
            Operand::Int(number) => Ok(Operand::Int(*number)),
            Operand::Null => Ok(Operand::Null),
            Operand::Poison => Ok(Operand::Poison),
            Operand::Lanes(lanes) => Ok(Operand::Lanes(lanes.copy()?)),
            Operand::Global(symbol, bytes) => Ok(Operand::Global(*symbol, *bytes)),
            Operand::OutOfRange(symbol) => Ok(Operand::OutOfRange(*symbol)),
        }
    }
}

impl Copies for Signature {
    fn copy(&self) -> Result<Self, AllocError> {
        Ok(Signature {
            params: self.params.copy()?,
            varargs: self.varargs,
        })
    }
}

impl Copies for Actual {
    fn copy(&self) -> Result<Self, AllocError> {
        Ok(Actual {
            ty: self.ty,
            kept: self.kept.copy()?,
        })
    }
}

impl Copies for Callee {
    fn copy(&self) -> Result<Self, AllocError> {
        let signature = match &self.signature {
            Some(signature) => Some(signature.copy()?),
            None => None,
        };
        Ok(Callee {
            tail: self.tail,
            before: self.before.copy()?,
            signature,
            name: self.name.copy()?,
            actuals: self.actuals.copy()?,
            after: self.after.copy()?,
        })
    }
}

impl Copies for InstKind {
    fn copy(&self) -> Result<Self, AllocError> {
        match self {
            InstKind::Binary(operator, flags) => Ok(InstKind::Binary(*operator, *flags)),
            InstKind::Compare(predicate, ty) => Ok(InstKind::Compare(*predicate, *ty)),
            InstKind::Select(condition, last) => Ok(InstKind::Select(*condition, *last)),
            InstKind::Freeze => Ok(InstKind::Freeze),
            InstKind::Trunc(from, nuw, nsw) => Ok(InstKind::Trunc(*from, *nuw, *nsw)),
            InstKind::Zext(from, nneg) => Ok(InstKind::Zext(*from, *nneg)),
            InstKind::Sext(from) => Ok(InstKind::Sext(*from)),
            InstKind::PtrToInt => Ok(InstKind::PtrToInt),
            InstKind::Phi => Ok(InstKind::Phi),
            InstKind::Offset(ty, widths, inbounds, nuw, nusw) => Ok(InstKind::Offset(
                *ty,
                widths.copy()?,
                *inbounds,
                *nuw,
                *nusw,
            )),
            InstKind::Load(align) => Ok(InstKind::Load(*align)),
            InstKind::Store(ty, align) => Ok(InstKind::Store(*ty, *align)),
            InstKind::Call(callee) => Ok(InstKind::Call(callee.copy()?)),
            InstKind::Extract(vector, width) => Ok(InstKind::Extract(*vector, *width)),
            InstKind::Insert(element, width) => Ok(InstKind::Insert(*element, *width)),
            InstKind::Shuffle(first, second, mask) => {
                Ok(InstKind::Shuffle(*first, *second, *mask))
            }
            InstKind::Jump => Ok(InstKind::Jump),
            InstKind::Branch => Ok(InstKind::Branch),
            InstKind::Switch(width, cases) => Ok(InstKind::Switch(*width, cases.copy()?)),
            InstKind::ReturnVoid => Ok(InstKind::ReturnVoid),
            InstKind::Return(ty) => Ok(InstKind::Return(*ty)),
            InstKind::Unreachable => Ok(InstKind::Unreachable),
        }
    }
}

impl Copies for Inst {
    fn copy(&self) -> Result<Self, AllocError> {
        Ok(Inst {
            kind: self.kind.copy()?,
            ty: self.ty,
            args: self.args.copy()?,
            labels: self.labels.copy()?,
            result: self.result,
            wide: self.wide,
            kept: self.kept.copy()?,
        })
    }
}

impl Copies for Block {
    fn copy(&self) -> Result<Self, AllocError> {
        Ok(Block {
            name: self.name,
            insts: self.insts.copy()?,
        })
    }
}

impl Copies for Param {
    fn copy(&self) -> Result<Self, AllocError> {
        Ok(Param {
            ty: self.ty,
            kept: self.kept.copy()?,
            name: self.name,
        })
    }
}

impl Copies for Function {
    fn copy(&self) -> Result<Self, AllocError> {
        Ok(Function {
            name: self.name.copy()?,
            before: self.before.copy()?,
            ret: self.ret,
            params: self.params.copy()?,
            varargs: self.varargs,
            after: self.after.copy()?,
            body: self.body.copy()?,
            names: self.names.copy()?,
        })
    }
}

impl Copies for MemTy {
    fn copy(&self) -> Result<Self, AllocError> {
        match self {
            MemTy::One(ty) => Ok(MemTy::One(*ty)),
            MemTy::Array(count, element) => Ok(MemTy::Array(*count, *element)),
            MemTy::Struct(packed, members) => Ok(MemTy::Struct(*packed, members.copy()?)),
            MemTy::Named(place) => Ok(MemTy::Named(*place)),
        }
    }
}

impl Copies for TypeName {
    fn copy(&self) -> Result<Self, AllocError> {
        Ok(TypeName {
            name: self.name.copy()?,
            ty: self.ty,
        })
    }
}

impl Copies for Symbol {
    fn copy(&self) -> Result<Self, AllocError> {
        Ok(Symbol {
            name: self.name.copy()?,
            kind: self.kind,
            before: self.before.copy()?,
            after: self.after.copy()?,
        })
    }
}

impl Copies for Module {
    fn copy(&self) -> Result<Self, AllocError> {
        Ok(Module {
            head: self.head.copy()?,
            types: self.types.copy()?,
            extents: self.extents.copy()?,
            type_names: self.type_names.copy()?,
            symbols: self.symbols.copy()?,
            functions: self.functions.copy()?,
            tail: self.tail.copy()?,
        })
    }
}
